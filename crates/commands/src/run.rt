// `run`: calls from standard input, a line each, on one pile over a file.
use crate::names::Escaped;
use anyhow::{Context, ensure};
use call_lines::{Done, Found, Order, read_order};
use files::description::describe;
use files::input::{is_object, load, read_object, read_table};
use files::output::write_map_out;
use graph::SectionGraph;
use options::Options;
use pile::Pile;
use std::fs;
use std::rt::Files;
use texts::table_text;

// What a line asks for, if it is text and an order.
fn order_in(line: &[u8]) -> Option<Order> {
    read_order(str::from_utf8(line).ok()?)
}

// The same of a line by its number, told where it is none.
fn order(number: usize, line: &[u8]) -> anyhow::Result<Order> {
    order_in(line).context(format_args!("line {number} is no call: {}", Escaped(line)))
}

// Does what a line asks for, and prints what comes of it.
fn perform<G: SectionGraph + Drop>(
    rt: &impl Print,
    pile: &mut Pile<G>,
    wanted: Order,
) -> anyhow::Result<()> {
    match wanted {
        Order::Call(call) => {
            let answer = pile.apply(call);
            println!(rt; "{}", Done { call, answer })?;
        }
        Order::Place(section) => {
            let place = pile.place(section);
            println!(rt; "{}", Found { section, place })?;
        }
    }
    Ok(())
}

fn run_graph<G: SectionGraph + Drop>(
    rt: &(impl Files + Print + Eprint + AllocGlobal),
    below: G,
    calls: &[u8],
    options: &Options,
) -> anyhow::Result<()> {
    // standard output has a line for each call, and nothing else
    eprintln!(rt; "{}", describe(&below))?;
    let mut pile = Pile::new(below);
    for (i, line) in calls.split_inclusive(|x| *x == b'\n').enumerate() {
        let wanted = order(
            i.saturating_add(1),
            line.strip_suffix(b"\n").unwrap_or(line),
        )?;
        perform(rt, &mut pile, wanted)?;
    }
    if let Some(path) = &options.output {
        fs::write(rt, path.as_str(), table_text(rt.alloc(), &pile)?.as_slice())?;
    }
    write_map_out(rt, &pile, options)?;
    Ok(())
}

pub fn run(
    rt: &(impl Files + Input + Print + Eprint + AllocGlobal),
    options: Options,
) -> anyhow::Result<()> {
    ensure!(
        options.file.is_some(),
        "run needs a file, since the calls come on standard input"
    );
    let bytes = load(rt, &options.file)?;
    let calls = load(rt, &None)?;
    if is_object(bytes.as_slice()) {
        run_graph(rt, read_object(rt, bytes)?, calls.as_slice(), &options)
    } else {
        run_graph(rt, read_table(rt, bytes)?, calls.as_slice(), &options)
    }
}

#[cfg(test)]
mod tests {
    use super::*;

    #[test]
    fn a_line_that_is_no_call_is_told(rt: HostRuntime) -> anyhow::Result<()> {
        for (line, want) in [
            (b"pin \xff3".as_slice(), r"line 3 is no call: pin \xff3"),
            (b"sweep\r", r"line 3 is no call: sweep\r"),
            (b"", "line 3 is no call: "),
        ] {
            match order(3, line) {
                Ok(_) => anyhow::bail!("it was read"),
                Err(error) => assert_eq!(rt; format!(in rt.alloc(); "{error}")?.as_str(), want),
            }
        }
        Ok(())
    }
}
