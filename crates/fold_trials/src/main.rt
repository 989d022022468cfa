// Folds many small files by the library and by plain readers and a plain pile of its own, which share no code with it, and counts where the two
// differ.

#![tactic(auto)]

mod chance;
mod damage;
mod expected;
mod inputs;
mod object_fields;
mod object_inputs;
mod object_reader;
mod object_rules;
mod object_writer;
mod plain_pile;
mod plain_reader;
mod shapes;
mod spelling;

use buffers::plain::fold_plain;
use chance::Chance;
use expected::{Expected, FILLER, expectation};
use inputs::{Form, Input, input_by_chance};
use std::alloc::{AllocError, Global};
use std::collections::BTreeMap;

const TABLES: u32 = 4000;

const OBJECTS: u32 = 2000;

// What the library makes of an input, in buffers of the same length.
fn found(heap: Global, input: &Input, expected: &Expected) -> Result<Expected, AllocError> {
    let mut table = vec![in heap; FILLER; expected.table.len()]?;
    let mut map = vec![in heap; FILLER; expected.map.len()]?;
    let reply = fold_plain(
        heap,
        input.file.as_slice(),
        input.calls.as_slice(),
        table.as_mut_slice(),
        map.as_mut_slice(),
    );
    Ok(Expected { reply, table, map })
}

fn is_same(one: &Expected, other: &Expected) -> bool {
    one.reply == other.reply
        && one.table.as_slice() == other.table.as_slice()
        && one.map.as_slice() == other.map.as_slice()
}

// How often each status with each refusal came, in how many replies something was dropped, merged, or took rounds, and in how many trials
// the two differ.
#[derive(Drop)]
struct Tally {
    replies: BTreeMap<(u32, u32), u32>,
    dropped: u32,
    merged: u32,
    deep: u32,
    differences: u32,
}

impl Tally {
    fn new(heap: Global) -> Tally {
        Tally {
            replies: BTreeMap::new(heap),
            dropped: 0,
            merged: 0,
            deep: 0,
            differences: 0,
        }
    }

    fn count(&mut self, expected: &Expected, is_same: bool) -> Result<(), AllocError> {
        let reply = expected.reply;
        let times = self
            .replies
            .entry((reply.status, reply.number))?
            .or_insert(0);
        *times = times.saturating_add(1);
        self.dropped = self.dropped.saturating_add(u32::from(reply.dropped > 0));
        self.merged = self.merged.saturating_add(u32::from(reply.merged > 0));
        self.deep = self.deep.saturating_add(u32::from(reply.rounds > 1));
        self.differences = self.differences.saturating_add(u32::from(!is_same));
        Ok(())
    }
}

// Says of a trial in which the two differ what each replied.
fn show_difference(
    rt: &HostRuntime,
    trial: u32,
    expected: &Expected,
    found: &Expected,
) -> anyhow::Result<()> {
    println!(rt; "trial {trial}: expected {:?}", expected.reply)?;
    println!(rt; "trial {trial}: found    {:?}", found.reply)?;
    Ok(())
}

fn trial(rt: &HostRuntime, tally: &mut Tally, form: Form, trial: u32) -> anyhow::Result<()> {
    let mut chance = Chance::new(u64::from(trial));
    let (input, meant) = input_by_chance(rt.alloc(), &mut chance, form)?;
    let expected = expectation(rt.alloc(), &input, meant)?;
    let found = found(rt.alloc(), &input, &expected)?;
    let is_same = is_same(&expected, &found);
    if !is_same {
        show_difference(rt, trial, &expected, &found)?;
    }
    tally.count(&expected, is_same)?;
    Ok(())
}

// So many trials on files of a form, and what they came to.
fn trials(rt: &HostRuntime, form: Form, count: u32) -> anyhow::Result<()> {
    let mut tally = Tally::new(rt.alloc());
    for number in 0..count {
        trial(rt, &mut tally, form, number)?;
    }
    for ((status, number), times) in &tally.replies {
        println!(rt; "status {status}, refusal {number}: {times}")?;
    }
    println!(rt;
        "sections dropped in {}, merged in {}, two rounds or more in {}",
        tally.dropped, tally.merged, tally.deep
    )?;
    println!(rt; "{count} trials, {} differences", tally.differences)?;
    Ok(())
}

fn main(rt: HostRuntime) -> anyhow::Result<()> {
    println!(rt; "tables")?;
    trials(&rt, Form::Table, TABLES)?;
    println!(rt; "objects")?;
    trials(&rt, Form::Object, OBJECTS)
}
