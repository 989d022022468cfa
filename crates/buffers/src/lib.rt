// A file, which is an object or a section table, folded after some calls: its table and its fold map in buffers of the caller.

#![tactic(auto)]

ghost use Rattle.std.specs.Prelude.{◌≡◌, length, true, false, IfOk, MatchResult, OnErr, OnOk, None, Some};
ghost use Rattle.fault.specs.Refusal.{ok_unless};
ghost use Rattle.row_writer.specs.Writing.{small};
ghost use Rattle.layout.specs.Layout.{text_of};
ghost use Rattle.table.specs.Meaning.{graph_held};
ghost use Rattle.object.specs.Reader.{graph_of as graph_read};
ghost use Rattle.runs.specs.State.{run};
ghost use Rattle.ledger.specs.Told.{told};
ghost use Rattle.foldmap.specs.Map.{map_text};
ghost use Rattle.buffers.specs.Outcome.{is_object, refusal_of_file, graph_of_file, refusal_in, refusal_among, finished, EndsAfter, table_after, map_after, done_from, fitting, reply_over, reply_of, put_if};

pub mod plain;

use calls::{Answer, Call};
use fault::{Fault, Kind, Layer};
use foldmap::{map_length, write_map};
use graph::SectionGraph;
use object::Object;
use pile::Pile;
use std::alloc::{AllocError, Global};
use table::Table;
use table_writer::{table_length, write_table};

// How long the table and the fold map are, and what the last sweep and the last fold answered.
#[derive(Clone, Copy, PartialEq, Eq, Debug)]
pub struct Done {
    pub table: usize,
    pub map: usize,
    pub present: u16,
    pub dropped: u16,
    pub merged: u16,
    pub rounds: u16,
}

// What is answered. Nothing is written but by `Written`.
#[derive(Clone, Copy, PartialEq, Eq, Debug)]
pub enum Reply {
    // the table and the fold map stand in the buffers
    Written(Done),
    // a buffer is too short for what would be done
    Short(Fault, Done),
    // the file or a call is refused
    Refused(Fault),
}

// Whether a file is an object and no table, by its first byte.
fn is_object(file: &[u8]) -> bool
    ensures { result ≡ is_object file.now }
{
    matches!(file.first(), Some(0x7f))
}

// The object of a file.
#[tactic(auto, using(crate::proofs::Files::object_refusal))]
fn read_object(heap: Global, file: Vec<u8>) -> Result<Object, Fault>
    requires { is_object file.items ≡ true }
    ensures { MatchResult result (λ x. (refusal_of_file file.items ≡ None) × (graph_read x ≡ graph_of_file file.items)) (λ f. refusal_of_file file.items ≡ Some f) }
{
    let mut object = Object::new(heap);
    object.read(file)?;
    Ok(object)
}

// The table of a file.
#[tactic(auto, using(crate::proofs::Files::table_refusal))]
fn read_table(heap: Global, file: Vec<u8>) -> Result<Table, Fault>
    requires { is_object file.items ≡ false }
    ensures { MatchResult result (λ x. (refusal_of_file file.items ≡ None) × (graph_held x ≡ graph_of_file file.items)) (λ f. refusal_of_file file.items ≡ Some f) }
{
    let mut table = Table::new(heap);
    table.read(file)?;
    Ok(table)
}

// The refusal that an answer is, if it is one.
fn accepted(answer: Answer) -> Result<(), Fault>
    ensures { result ≡ ok_unless (refusal_in answer) tt }
{
    match answer {
        Answer::Refused(fault) => Err(fault),
        _ => Ok(()),
    }
}

// Does calls in order, up to the first that is refused.
fn perform<G: SectionGraph>(pile: &mut Pile<G>, calls: &[Call]) -> Result<(), Fault>
    ensures over { pile.new.below ≡ pile.old.below }
    ensures answer { result ≡ ok_unless (refusal_among (told (G.SectionGraph.graph pile.old.below) pile.old.table) calls.now) tt }
    ensures state { OnOk result (told (G.SectionGraph.graph pile.old.below) pile.new.table ≡ run (told (G.SectionGraph.graph pile.old.below) pile.old.table) calls.now) }
{
    for call in calls {
        accepted(pile.apply(*call))?;
    }
    Ok(())
}

// Sweeps and folds, and tells what comes of it.
#[tactic(auto, unfolding(crate::specs::Outcome::finished, crate::specs::Outcome::done_from))]
fn finish<G: SectionGraph>(pile: &mut Pile<G>) -> Done
    ensures over { pile.new.below ≡ pile.old.below }
    ensures state { told (G.SectionGraph.graph pile.old.below) pile.new.table ≡ finished (told (G.SectionGraph.graph pile.old.below) pile.old.table) }
    ensures done { result ≡ done_from (told (G.SectionGraph.graph pile.old.below) pile.old.table) }
    ensures table { result.table ≡ length (text_of (told (G.SectionGraph.graph pile.new.below) pile.new.table).graph) }
    ensures map { result.map ≡ length (map_text (told (G.SectionGraph.graph pile.new.below) pile.new.table)) }
{
    let (_, dropped) = pile.sweep();
    let (present, merged, rounds) = pile.fold();
    Done {
        table: table_length(pile),
        map: map_length(pile),
        present,
        dropped,
        merged,
        rounds,
    }
}

// A sweep and a fold behind other calls are one list with them, so all that is promised of a pile after any calls is promised here.
#[tactic(auto, using(crate::proofs::Ending::ends_after))]
pub fn ends_after()
    ensures { EndsAfter }
{}

// The refusal of a buffer that is too short, with the length needed.
fn small(needed: usize) -> Fault
    ensures { result ≡ small needed }
{
    Fault::new(Kind::Small, needed as u64, Layer::Output)
}

// Writes the table and the fold map of a pile where both buffers have room.
#[tactic(auto, using(row_writer::proofs::Puts::wrote_fits, row_writer::proofs::Puts::put_fits, crate::proofs::Buffers::put_written, crate::proofs::Buffers::put_short))]
fn deliver<G: SectionGraph>(pile: &Pile<G>, done: Done, table: &mut [u8], map: &mut [u8]) -> Reply
    requires table { done.table ≡ length (text_of (told (G.SectionGraph.graph pile.now.below) pile.now.table).graph) }
    requires map { done.map ≡ length (map_text (told (G.SectionGraph.graph pile.now.below) pile.now.table)) }
    ensures reply { result ≡ fitting done (length table.old) (length map.old) }
    ensures table { table.new ≡ put_if result (text_of (told (G.SectionGraph.graph pile.now.below) pile.now.table).graph) table.old }
    ensures map { map.new ≡ put_if result (map_text (told (G.SectionGraph.graph pile.now.below) pile.now.table)) map.old }
{
    if table.len() < done.table {
        return Reply::Short(small(done.table), done);
    }
    if map.len() < done.map {
        return Reply::Short(small(done.map), done);
    }
    write_table(pile, table).unwrap();
    write_map(pile, map).unwrap();
    Reply::Written(done)
}

// Folds a section graph after calls.
#[tactic(auto, using(crate::proofs::Buffers::put_refused), unfolding(crate::specs::Outcome::reply_over, crate::specs::Outcome::table_after, crate::specs::Outcome::map_after))]
fn fold_graph<G: SectionGraph + Drop>(
    below: G,
    calls: &[Call],
    table: &mut [u8],
    map: &mut [u8],
) -> Reply
    ensures reply { result ≡ reply_over (G.SectionGraph.graph below) calls.now (length table.old) (length map.old) }
    ensures table { table.new ≡ put_if result (table_after (G.SectionGraph.graph below) calls.now) table.old }
    ensures map { map.new ≡ put_if result (map_after (G.SectionGraph.graph below) calls.now) map.old }
{
    let mut pile = Pile::new(below);
    match perform(&mut pile, calls) {
        Ok(()) => {
            let done = finish(&mut pile);
            deliver(&pile, done, table, map)
        }
        Err(fault) => Reply::Refused(fault),
    }
}

// Folds an object.
#[tactic(auto, using(crate::proofs::Buffers::put_refused), unfolding(crate::specs::Outcome::reply_of))]
fn fold_object(
    heap: Global,
    file: Vec<u8>,
    calls: &[Call],
    table: &mut [u8],
    map: &mut [u8],
) -> Reply
    requires { is_object file.items ≡ true }
    ensures reply { result ≡ reply_of file.items calls.now (length table.old) (length map.old) }
    ensures table { table.new ≡ put_if result (table_after (graph_of_file file.items) calls.now) table.old }
    ensures map { map.new ≡ put_if result (map_after (graph_of_file file.items) calls.now) map.old }
{
    match read_object(heap, file) {
        Ok(object) => fold_graph(object, calls, table, map),
        Err(fault) => Reply::Refused(fault),
    }
}

// Folds a table.
#[tactic(auto, using(crate::proofs::Buffers::put_refused), unfolding(crate::specs::Outcome::reply_of))]
fn fold_table(
    heap: Global,
    file: Vec<u8>,
    calls: &[Call],
    table: &mut [u8],
    map: &mut [u8],
) -> Reply
    requires { is_object file.items ≡ false }
    ensures reply { result ≡ reply_of file.items calls.now (length table.old) (length map.old) }
    ensures table { table.new ≡ put_if result (table_after (graph_of_file file.items) calls.now) table.old }
    ensures map { map.new ≡ put_if result (map_after (graph_of_file file.items) calls.now) map.old }
{
    match read_table(heap, file) {
        Ok(read) => fold_graph(read, calls, table, map),
        Err(fault) => Reply::Refused(fault),
    }
}

// Folds a file that is moved in.
fn fold_moved(
    heap: Global,
    file: Vec<u8>,
    calls: &[Call],
    table: &mut [u8],
    map: &mut [u8],
) -> Reply
    ensures reply { result ≡ reply_of file.items calls.now (length table.old) (length map.old) }
    ensures table { table.new ≡ put_if result (table_after (graph_of_file file.items) calls.now) table.old }
    ensures map { map.new ≡ put_if result (map_after (graph_of_file file.items) calls.now) map.old }
{
    if is_object(file.as_slice()) {
        fold_object(heap, file, calls, table, map)
    } else {
        fold_table(heap, file, calls, table, map)
    }
}

// Reads a file, does the calls on a new pile over it, then a sweep and a fold, and writes the table of what is left and the fold map
// over the fronts of the two buffers. The first refusal ends it, of the file, of a call, or of a buffer that is too short, and nothing
// is written then. The file is copied on the heap; for want of memory nothing is done.
pub fn fold_file(
    heap: Global,
    file: &[u8],
    calls: &[Call],
    table: &mut [u8],
    map: &mut [u8],
) -> Result<Reply, AllocError>
    ensures reply { IfOk result (λ reply. reply ≡ reply_of file.now calls.now (length table.old) (length map.old)) }
    ensures table { IfOk result (λ reply. table.new ≡ put_if reply (table_after (graph_of_file file.now) calls.now) table.old) }
    ensures map { IfOk result (λ reply. map.new ≡ put_if reply (map_after (graph_of_file file.now) calls.now) map.old) }
    ensures kept { OnErr result ((table.new ≡ table.old) × (map.new ≡ map.old)) }
{
    Ok(fold_moved(heap, file.to_vec(heap)?, calls, table, map))
}
