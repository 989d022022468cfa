// Does calls on piles over section graphs; tests/pile_cases.py writes them. data/worked has worked examples: what comes of each is printed,
// line by line. data/random has random graphs and calls with what is expected of them: a line of each is printed, and where something
// else came of it, the first line that differs.
//
// A case is "= ", its name, byte 10, the rows of a section table, and behind an empty line the orders, one a line; in data/random there is
// behind another empty line what is expected. At the order "pile" a new pile is put over the one before, and at the first over the table.

#![tactic(auto)]

mod session;
mod widening;

use anyhow::Context;
use session::session;
use std::alloc::Global;
use std::fs;
use table::Table;
use widening::widened;

// A case in its parts.
#[derive(Clone, Copy)]
struct Case<'a> {
    name: &'a str,
    table: &'a str,
    orders: &'a str,
    expected: &'a str,
}

// The parts of a case.
fn parts(text: &str) -> anyhow::Result<Case<'_>> {
    let (head, rest) = text.split_once("\n\n").context("a case has no orders")?;
    let (name, table) = head.split_once('\n').context("a case has no table")?;
    let (orders, expected) = rest.split_once("\n\n").unwrap_or((rest, ""));
    Ok(Case {
        name,
        table,
        orders,
        expected,
    })
}

// What comes of a case, line by line.
fn run(heap: Global, case: &Case) -> anyhow::Result<String> {
    let mut table = Table::new(heap);
    let text = widened(heap, case.table)?;
    table.read(text.into_bytes()).context(case.name)?;
    session(heap, table, case.orders)
}

// Runs the worked examples and prints what comes of them.
fn show(rt: &HostRuntime, cases: &str) -> anyhow::Result<()> {
    for one in cases.split("= ").skip(1) {
        let case = parts(one)?;
        let log = run(rt.alloc(), &case)?;
        println!(rt; "{}\n{log}", case.name)?;
    }
    Ok(())
}

// A digest of some text: FNV-1a.
fn digest(text: &str) -> u64 {
    text.bytes().fold(0xcbf29ce484222325, |hash, x| {
        (hash ^ u64::from(x)).wrapping_mul(0x100000001b3)
    })
}

// The first lines in which two texts differ, if they do.
fn first_difference<'a>(one: &'a str, other: &'a str) -> Option<(&'a str, &'a str)> {
    one.split('\n').zip(other.split('\n')).find(|(a, b)| a != b)
}

// Runs the random cases and compares what comes of them with what is expected.
fn compare(rt: &HostRuntime, cases: &str) -> anyhow::Result<()> {
    let mut count = 0u32;
    let mut differ = 0u32;
    for one in cases.split("= ").skip(1) {
        let case = parts(one)?;
        let log = run(rt.alloc(), &case)?;
        let expected = widened(rt.alloc(), case.expected)?;
        println!(rt;
            "{}: {} bytes, digest {:016x}",
            case.name,
            log.len(),
            digest(log.as_str())
        )?;
        count = count.saturating_add(1);
        if let Some((line, wanted)) = first_difference(log.as_str(), expected.as_str()) {
            println!(rt; "  {line}, where {wanted} is expected")?;
            differ = differ.saturating_add(1);
        }
    }
    println!(rt; "{count} cases, {differ} differ")?;
    Ok(())
}

fn main(rt: HostRuntime) -> anyhow::Result<()> {
    show(&rt, fs::read_to_string(&rt, "worked")?.as_str())?;
    compare(&rt, fs::read_to_string(&rt, "random")?.as_str())
}
