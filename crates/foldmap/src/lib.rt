// The fold map of a pile: where each section of the graph below went, in one row for each that is present there.

#![tactic(auto)]

ghost use Rattle.std.specs.Prelude.{◌≡◌, ◌≤◌, length};
ghost use Rattle.row_writer.specs.Writing.{wrote, put};
ghost use Rattle.pieces.specs.Writes.{Writes};
ghost use Rattle.runs.specs.State.{place_of};
ghost use Rattle.ledger.specs.Told.{told};
ghost use Rattle.foldmap.specs.Map.{told_at, told_of, row_of, map_text};
ghost use Rattle.foldmap.specs.Laws.{RowsStand};
ghost use Rattle.foldmap.specs.Examples.{ExamplesHold};

use calls::Place;
use fault::{Fault, Kind, Layer};
use graph::SectionGraph;
use pieces::write_each;
use pile::Pile;
use row_writer::{Outcome, write_moved};

// How long a row is.
const MOVED_ROW: usize = 38;

// What the row of a section tells that is found at `place`: an outcome and a number. One that is absent below has no row.
fn outcome(section: u16, place: Place) -> Option<(Outcome, u16)>
    ensures { result ≡ told_at section place }
{
    match place {
        Place::At(p) if p == section => Some((Outcome::Own, p)),
        Place::At(p) => Some((Outcome::Other, p)),
        Place::Swept => Some((Outcome::Swept, 0)),
        Place::Absent => None,
    }
}

// What the row of section `s` tells.
fn row<G: SectionGraph>(pile: &Pile<G>, s: u16) -> Option<(Outcome, u16)>
    ensures { result ≡ told_of s (place_of (told (G.SectionGraph.graph pile.now.below) pile.now.table) s) }
{
    outcome(s, pile.place(s).ok()?)
}

// How long the row of section `s` is.
#[tactic(auto, using(row_writer::proofs::Moved::moved_length))]
fn row_length<G: SectionGraph>(pile: &Pile<G>, s: u16) -> usize
    ensures long { result ≡ length (row_of s (told_of s (place_of (told (G.SectionGraph.graph pile.now.below) pile.now.table) s))) }
    ensures few { result ≤ 38 }
{
    row(pile, s).map_or(0, |_| MOVED_ROW)
}

// How long the map of a pile is.
pub fn map_length<G: SectionGraph>(pile: &Pile<G>) -> usize
    ensures { result ≡ length (map_text (told (G.SectionGraph.graph pile.now.below) pile.now.table)) }
{
    (0..pile.count()).map(|s| row_length(pile, s)).sum()
}

// Writes the row of section `s`, if it has one.
fn write_place<G: SectionGraph>(pile: &Pile<G>, s: u16, out: &mut [u8]) -> Result<usize, Fault>
    ensures { Writes (row_of s (told_of s (place_of (told (G.SectionGraph.graph pile.now.below) pile.now.table) s))) out.old out.new result }
{
    let Some((outcome, place)) = row(pile, s) else {
        return Ok(0);
    };
    write_moved(s, outcome, place, out)
}

// Writes the rows.
fn write_rows<G: SectionGraph>(pile: &Pile<G>, out: &mut [u8]) -> Result<usize, Fault>
    ensures { Writes (map_text (told (G.SectionGraph.graph pile.now.below) pile.now.table)) out.old out.new result }
{
    write_each(pile.count(), out, |s: u16, part: &mut [u8]| {
        write_place(pile, s, part)
    })
}

// Writes the map of a pile over the front of the buffer, and answers how long it is. What stands behind it in the buffer
// stays. A buffer that is too short is refused with the length needed before anything is written.
#[tactic(auto, using(pieces::proofs::Writing::refused_short, pieces::proofs::Writing::kept_short, pieces::proofs::Writing::answered, pieces::proofs::Writing::stands))]
pub fn write_map<G: SectionGraph>(pile: &Pile<G>, out: &mut [u8]) -> Result<usize, Fault>
    ensures answer { result ≡ wrote (map_text (told (G.SectionGraph.graph pile.now.below) pile.now.table)) out.old }
    ensures text { out.new ≡ put (map_text (told (G.SectionGraph.graph pile.now.below) pile.now.table)) out.old }
{
    let needed = map_length(pile);
    // the test of the other writers: one function for them would be no shorter
    if out.len() < needed {
        return Err(Fault::new(Kind::Small, needed as u64, Layer::Output));
    }
    write_rows(pile, out)
}

// Exactly the sections that are present below have a row.
#[tactic(auto, using(crate::proofs::Rows::rows_stand))]
pub fn rows_stand()
    ensures { RowsStand }
{}

// The maps of three small piles, byte for byte.
#[tactic(auto, using(crate::proofs::Examples::examples_hold))]
pub fn examples_hold()
    ensures { ExamplesHold }
{}
