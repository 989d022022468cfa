// Piles over a section graph, what they are asked to do, and what comes of it, line by line.
use anyhow::{Context, ensure};
use call_lines::{Done, Found, Order, read_order};
use calls::{Answer, Call};
use foldmap::{map_length, write_map};
use graph::SectionGraph;
use pile::Pile;
use std::alloc::{AllocError, Global};
use std::fmt::Write;
use std::{iter, str};
use texts::table_text;

// The fold map of a pile.
fn map_text<G: SectionGraph>(heap: Global, pile: &Pile<G>) -> anyhow::Result<Vec<u8>> {
    let mut text = vec![in heap; 0u8; map_length(pile)]?;
    write_map(pile, text.as_mut_slice())?;
    Ok(text)
}

// All that is told of a pile: its table and its fold map.
fn told<G: SectionGraph>(heap: Global, pile: &Pile<G>) -> anyhow::Result<Vec<u8>> {
    let mut text = table_text(heap, pile)?;
    text.extend_from_slice(map_text(heap, pile)?.as_slice())?;
    Ok(text)
}

// How a text stands to what it was.
fn compared(before: &[u8], after: &[u8]) -> &'static str {
    if before == after {
        "unchanged"
    } else {
        "changed"
    }
}

// Does a call and says what it answers; of a refused one also whether it changed something.
fn perform<G: SectionGraph + Drop>(
    heap: Global,
    pile: &mut Pile<G>,
    call: Call,
    log: &mut String,
) -> anyhow::Result<()> {
    let before = told(heap, pile)?;
    let answer = pile.apply(call);
    write!(log, "{}", Done { call, answer })?;
    if let Answer::Refused(_) = answer {
        let after = told(heap, pile)?;
        write!(log, ", {}", compared(before.as_slice(), after.as_slice()))?;
    }
    log.push('\n')?;
    Ok(())
}

// Says where a section is found.
fn find<G: SectionGraph>(pile: &Pile<G>, section: u16, log: &mut String) -> Result<(), AllocError> {
    let place = pile.place(section);
    writeln!(log, "{}", Found { section, place })
}

// Says where each section is found, and what is said of the first number past them and of the highest.
fn find_all<G: SectionGraph>(pile: &Pile<G>, log: &mut String) -> Result<(), AllocError> {
    for s in (0..=pile.count()).chain(iter::once(u16::MAX)) {
        find(pile, s, log)?;
    }
    Ok(())
}

// The length of a text and the rows that it is made of.
fn show(name: &str, text: &[u8], log: &mut String) -> anyhow::Result<()> {
    write!(log, "{name} {}\n{}", text.len(), str::from_utf8(text)?)?;
    Ok(())
}

// Does what a line asks for.
fn obey<G: SectionGraph + Drop>(
    heap: Global,
    pile: &mut Pile<G>,
    line: &str,
    log: &mut String,
) -> anyhow::Result<()> {
    match line {
        "places" => find_all(pile, log)?,
        "table" => show(line, table_text(heap, pile)?.as_slice(), log)?,
        "map" => show(line, map_text(heap, pile)?.as_slice(), log)?,
        _ => match read_order(line).context(format_args!("no order: {line}"))? {
            Order::Call(call) => perform(heap, pile, call, log)?,
            Order::Place(section) => find(pile, section, log)?,
        },
    }
    Ok(())
}

// A new pile over a graph after some orders; at the end is said whether the graph below is as it was. Without orders there is just the pile.
fn pile_over<G: SectionGraph + Drop>(
    heap: Global,
    below: G,
    orders: Option<&str>,
    log: &mut String,
) -> anyhow::Result<Pile<G>> {
    let Some(orders) = orders else {
        return Ok(Pile::new(below));
    };
    log.push_str("pile\n")?;
    let before = table_text(heap, &below)?;
    let mut pile = Pile::new(below);
    for line in orders.lines() {
        obey(heap, &mut pile, line, log)?;
    }
    let after = table_text(heap, pile.below())?;
    writeln!(
        log,
        "below {}",
        compared(before.as_slice(), after.as_slice())
    )?;
    Ok(pile)
}

// What comes of orders to at most three piles, one over the other.
pub fn session<G: SectionGraph + Drop>(
    heap: Global,
    below: G,
    orders: &str,
) -> anyhow::Result<String> {
    let mut log = String::new(heap);
    let mut piles = orders.split("pile\n").skip(1);
    let first = pile_over(heap, below, piles.next(), &mut log)?;
    let second = pile_over(heap, first, piles.next(), &mut log)?;
    pile_over(heap, second, piles.next(), &mut log)?;
    ensure!(piles.next().is_none(), "more than three piles");
    Ok(log)
}
