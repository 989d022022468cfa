// Runs the cases in data/cases, which tests/table_cases.py writes, and prints what becomes of each. A case is byte 1, its
// name, byte 10, and the text.

#![tactic(auto)]

use std::alloc::{AllocError, Global};
use std::fs;
use std::io::Write;
use table::Table;
use table_writer::table_length;
use texts::table_text;

// Whether the table that was read is written again as it was.
fn comes_back(heap: Global, table: &Table) -> Result<bool, AllocError> {
    let again = table_text(heap, table)?;
    Ok(again.as_slice() == table.text())
}

// One case: whether it was accepted.
fn case(rt: &HostRuntime, text: &[u8]) -> anyhow::Result<bool> {
    let mut table = Table::new(rt.alloc());
    if let Err(fault) = table.read(text.to_vec(rt.alloc())?) {
        let (number, layer) = (u8::from(fault.kind), u8::from(fault.layer));
        println!(rt; ": {number} at {}, layer {layer}", fault.place)?;
        return Ok(false);
    }
    if comes_back(rt.alloc(), &table)? {
        println!(rt; ": accepted, {} bytes", table_length(&table))?;
    } else {
        println!(rt; ": written otherwise")?;
    }
    Ok(true)
}

// The first of some cases: its name, its text, and the cases behind it. It begins with one byte, which is a 1; its name goes up to byte
// 10 and may hold a 1 itself, its text up to the next 1.
fn first(cases: &[u8]) -> (&[u8], &[u8], &[u8]) {
    let line = cases.iter().position(|x| *x == b'\n');
    let (name, rest) = cases.split_at(line.unwrap_or(cases.len()));
    let next = rest.iter().position(|x| *x == 1);
    let (text, behind) = rest.split_at(next.unwrap_or(rest.len()));
    (
        name.get(1..).unwrap_or(&[]),
        text.get(1..).unwrap_or(&[]),
        behind,
    )
}

// How many cases were accepted and how many refused; at most 1,000 are run.
fn run(rt: &HostRuntime, cases: &[u8]) -> anyhow::Result<(u32, u32)> {
    let mut accepted = 0u32;
    let mut refused = 0u32;
    let mut rest = cases;
    // a loop, since each case prints and may fail
    for _ in 0..1000u32 {
        if rest.is_empty() {
            break;
        }
        let (name, text, behind) = first(rest);
        rt.stdout().write_all(name)?;
        if case(rt, text)? {
            accepted = accepted.saturating_add(1);
        } else {
            refused = refused.saturating_add(1);
        }
        rest = behind;
    }
    Ok((accepted, refused))
}

fn main(rt: HostRuntime) -> anyhow::Result<()> {
    let cases = fs::read(&rt, "cases")?;
    let (accepted, refused) = run(&rt, cases.as_slice())?;
    println!(rt; "{accepted} accepted, {refused} refused")?;
    Ok(())
}
