// `check`: what a file holds, and that a table is written again as it was.
use anyhow::ensure;
use files::description::describe;
use files::input::{is_object, load, read_object, read_table};
use graph::SectionGraph;
use options::Options;
use std::rt::Files;
use table::Table;
use table_writer::table_length;
use texts::table_text;

fn tell<G: SectionGraph>(rt: &impl Print, kind: &str, graph: &G) -> anyhow::Result<()> {
    println!(rt; "{kind}\n{}", describe(graph))?;
    Ok(())
}

fn compare(rt: &(impl Print + AllocGlobal), table: &Table) -> anyhow::Result<()> {
    let again = table_text(rt.alloc(), table)?;
    ensure!(
        again.as_slice() == table.text(),
        "written again, the table is another"
    );
    println!(rt; "written again: {} bytes, the same", again.len())?;
    Ok(())
}

pub fn check(
    rt: &(impl Files + Input + Print + Eprint + AllocGlobal),
    options: Options,
) -> anyhow::Result<()> {
    ensure!(
        options.output.is_none(),
        "check writes no file: -o is an option of table"
    );
    ensure!(
        options.map.is_none(),
        "check writes no map: -m is an option of fold and run"
    );
    let bytes = load(rt, &options.file)?;
    if is_object(bytes.as_slice()) {
        let object = read_object(rt, bytes)?;
        tell(rt, "an ELF64 object", &object)?;
        println!(rt; "its table would have {} bytes", table_length(&object))?;
        Ok(())
    } else {
        let table = read_table(rt, bytes)?;
        tell(rt, "a section table", &table)?;
        compare(rt, &table)
    }
}
