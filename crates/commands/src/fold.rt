// `fold`: some calls on a pile over a file, then a sweep and a fold, and the table of what is left.
use crate::names::name_of;
use call_lines::Done;
use calls::{Answer, Call};
use files::description::describe;
use files::input::{is_object, load, read_object, read_table};
use files::or_row;
use files::output::{say, send, write_map_out};
use graph::SectionGraph;
use options::Wanted;
use pile::Pile;
use std::alloc::{AllocError, Global};
use std::rt::Files;
use texts::table_text;

// The section that a call speaks of, if it speaks of one.
fn section_of(call: Call) -> Option<u16> {
    match call {
        Call::Bind { section: s, .. } | Call::Pin { section: s } | Call::Root { section: s } => {
            Some(s)
        }
        Call::Sweep | Call::Fold => None,
    }
}

// The names of the sections that some calls speak of, as they stand behind the lines of the calls.
fn names_of(heap: Global, object: &[u8], calls: &[Call]) -> Result<Vec<String>, AllocError> {
    let mut names = Vec::new(heap);
    for call in calls {
        let name = section_of(*call).and_then(|s| name_of(object, s));
        names.push(match name {
            Some(name) => format!(in heap; "   ({name})")?,
            None => String::new(heap),
        })?;
    }
    Ok(names)
}

// Does one call. A refused one ends the command, with nothing written.
fn perform<G: SectionGraph + Drop>(
    rt: &(impl Print + Eprint + AllocGlobal),
    pile: &mut Pile<G>,
    call: Call,
    name: &str,
    wanted: &Wanted,
) -> anyhow::Result<()> {
    let answer = pile.apply(call);
    let done = Done { call, answer };
    say(rt, &wanted.options, format_args!("{done}{name}"))?;
    match answer {
        Answer::Refused(fault) => or_row(rt, Err(fault)),
        _ => Ok(()),
    }
}

fn fold_graph<G: SectionGraph + Drop>(
    rt: &(impl Files + Print + Eprint + AllocGlobal),
    below: G,
    names: &[String],
    wanted: &Wanted,
) -> anyhow::Result<()> {
    say(rt, &wanted.options, describe(&below))?;
    let mut pile = Pile::new(below);
    for (i, call) in wanted.calls.iter().enumerate() {
        let name = names.get(i).map_or("", |name| name.as_str());
        perform(rt, &mut pile, *call, name, wanted)?;
    }
    let (present, dropped) = pile.sweep();
    say(
        rt,
        &wanted.options,
        format_args!("swept          {dropped} sections dropped, {present} present"),
    )?;
    let (present, merged, rounds) = pile.fold();
    say(
        rt,
        &wanted.options,
        format_args!("folded         {merged} sections merged, {present} present, {rounds} rounds"),
    )?;
    let table = table_text(rt.alloc(), &pile)?;
    send(rt, &wanted.options, table.as_slice())?;
    say(
        rt,
        &wanted.options,
        format_args!("table          {} bytes", table.len()),
    )?;
    if let Some(length) = write_map_out(rt, &pile, &wanted.options)? {
        say(
            rt,
            &wanted.options,
            format_args!("map            {length} bytes"),
        )?;
    }
    Ok(())
}

pub fn fold(
    rt: &(impl Files + Input + Print + Eprint + AllocGlobal),
    wanted: Wanted,
) -> anyhow::Result<()> {
    let bytes = load(rt, &wanted.options.file)?;
    if is_object(bytes.as_slice()) {
        // before the bytes are moved into the reader
        let names = names_of(rt.alloc(), bytes.as_slice(), wanted.calls.as_slice())?;
        fold_graph(rt, read_object(rt, bytes)?, names.as_slice(), &wanted)
    } else {
        fold_graph(rt, read_table(rt, bytes)?, &[], &wanted)
    }
}
