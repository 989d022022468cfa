// `table`: the section table of a file as it was read, with nothing swept or folded.
use anyhow::ensure;
use files::input::{is_object, load, read_object, read_table};
use files::output::write_out;
use options::Options;
use std::rt::Files;

pub fn table(
    rt: &(impl Files + Input + Print + Eprint + AllocGlobal),
    options: Options,
) -> anyhow::Result<()> {
    ensure!(
        options.map.is_none(),
        "table writes no map: -m is an option of fold and run"
    );
    let bytes = load(rt, &options.file)?;
    if is_object(bytes.as_slice()) {
        write_out(rt, &read_object(rt, bytes)?, &options)
    } else {
        write_out(rt, &read_table(rt, bytes)?, &options)
    }
}
