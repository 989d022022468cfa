// Reads the section tables in data/cases, which tests/graph_cases.py writes, and prints of each which sections a root reaches, the class
// of each foldable section, and the rounds. A case is "= ", its name, byte 10, and the table.

#![tactic(auto)]

use anyhow::Context;
use content::may_fold;
use partition::partition;
use reach::reach;
use std::alloc::{AllocError, Global};
use std::fs;
use table::Table;

// The sections that a root reaches.
fn reached(heap: Global, table: &Table) -> Result<Vec<usize>, AllocError> {
    let marks = reach(table);
    let numbered = marks.iter().enumerate();
    numbered
        .filter(|(_, mark)| **mark)
        .map(|(s, _)| s)
        .collect(heap)
}

// The foldable sections with the classes that they have, and what else does not have itself as its class, which should be nothing.
fn paired(heap: Global, table: &Table, class: &[u16; 1024]) -> Result<Vec<(u16, u16)>, AllocError> {
    let pairs = (0..1024u16).zip(class.iter().copied());
    pairs
        .filter(|(s, c)| s != c || may_fold(table, *s))
        .collect(heap)
}

// One case.
fn case(rt: &HostRuntime, name: &str, text: &str) -> anyhow::Result<()> {
    let mut table = Table::new(rt.alloc());
    table
        .read(text.as_bytes().to_vec(rt.alloc())?)
        .context(name)?;
    let mut class = [0; 1024];
    let rounds = partition(&table, &mut class);
    let reached = reached(rt.alloc(), &table)?;
    let classes = paired(rt.alloc(), &table, &class)?;
    println!(rt; "{name}: reached {reached:?}, classes {classes:?}, rounds {rounds}")?;
    Ok(())
}

fn main(rt: HostRuntime) -> anyhow::Result<()> {
    let cases = fs::read_to_string(&rt, "cases")?;
    for one in cases.as_str().split("= ").skip(1) {
        let (name, text) = one.split_once('\n').unwrap_or((one, ""));
        case(&rt, name, text)?;
    }
    Ok(())
}
