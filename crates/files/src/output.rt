// What goes out: a section table to where it is wanted, and lines for people to where no table goes.
use crate::description::describe;
use crate::refusal::or_row;
use foldmap::{map_length, write_map};
use graph::SectionGraph;
use options::Options;
use pile::Pile;
use std::io::Write;
use std::rt::Files;
use std::{fmt, fs, io};
use texts::table_text;

// A line for people: on standard output where the table goes to a file, and else on standard error.
pub fn say<D: fmt::Display + Drop>(
    rt: &(impl Print + Eprint),
    options: &Options,
    line: D,
) -> io::Result<()> {
    if options.output.is_some() {
        println!(rt; "{line}")
    } else {
        eprintln!(rt; "{line}")
    }
}

// The text of a table, to the file that was named or to standard output.
pub fn send(rt: &(impl Files + Print), options: &Options, text: &[u8]) -> io::Result<()> {
    match &options.output {
        Some(path) => fs::write(rt, path.as_str(), text),
        None => io::writer(rt).write_all(text),
    }
}

// The fold map of a pile, to the file that was named, if one was, and its length.
pub fn write_map_out<G: SectionGraph>(
    rt: &(impl Files + Print + AllocGlobal),
    pile: &Pile<G>,
    options: &Options,
) -> anyhow::Result<Option<usize>> {
    let Some(path) = &options.map else {
        return Ok(None);
    };
    let mut text = vec![in rt.alloc(); 0u8; map_length(pile)]?;
    or_row(rt, write_map(pile, text.as_mut_slice()))?;
    fs::write(rt, path.as_str(), text.as_slice())?;
    Ok(Some(text.len()))
}

// The table of a section graph goes out, and what it holds is said.
pub fn write_out<G: SectionGraph>(
    rt: &(impl Files + Print + Eprint + AllocGlobal),
    graph: &G,
    options: &Options,
) -> anyhow::Result<()> {
    let said = describe(graph);
    send(rt, options, table_text(rt.alloc(), graph)?.as_slice())?;
    say(rt, options, said)?;
    Ok(())
}
