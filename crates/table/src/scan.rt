// The rows of a text, and the two walks over them: one checks them and notes where each section's row begins, the other
// looks for a row that names a section which is not there.
ghost use Rattle.std.specs.Prelude.{◌≡◌, ◌≤◌, length, None, slice_index_or};
ghost use Rattle.lines.specs.Lines.{lines};
ghost use Rattle.row.specs.Told.{told};
ghost use Rattle.layout.specs.Reading.{named, bad_row_at, dangling_at};
ghost use Rattle.table.specs.Notes.{no_notes, note_entry, starts_in, scanned, unnoted, targets_from};

use fault::{Fault, Kind, Layer};
use layout::State;
use row::{Row, read_row};

fn bad_row(at: usize) -> Fault
    ensures { result ≡ bad_row_at at }
{
    Fault::new(Kind::BadRow, at as u64, Layer::Format)
}

fn dangling(at: usize) -> Fault
    ensures { result ≡ dangling_at at }
{
    Fault::new(Kind::Dangling, at as u64, Layer::Format)
}

// The rows of a text from a place on, each with the place where it begins; the refusal of a row that does not form ends
// them.
#[derive(Drop)]
pub(crate) struct Rows<'a> {
    text: &'a [u8],
    at: usize,
    ghost inside: { at ≤ length text.now },
}

impl<'a> Rows<'a> {
    // All rows of a text.
    fn of(text: &'a [u8]) -> Rows<'a>
        ensures text { result.text.now ≡ text.entry.now }
        ensures at { result.at ≡ 0 }
    {
        Rows { text, at: 0 }
    }
}

impl<'a> Iterator for Rows<'a> {
    type Item = Result<(usize, Row<'a>), Fault>;

    ghost use Rattle.std.specs.Prelude.{◌-◌};
    ghost use Rattle.std.specs.Iterator.{at_most};
    ghost use Rattle.table.specs.Walk.{Gives};

    ghost next_gives = { Gives };

    ghost remaining = { λ s. at_most (length s.text.now - s.at) };

    fn next(&mut self) -> Option<Result<(usize, Row<'a>), Fault>> {
        let at = self.at;
        if at >= self.text.len() {
            return None;
        }
        let Ok(row) = read_row(&self.text[at..]) else {
            self.at = self.text.len();
            return Some(Err(bad_row(at)));
        };
        self.at = at + row.part().len();
        Some(Ok((at, row)))
    }
}

// The section that a row names besides its own.
fn named(row: &Row<'_>) -> Option<u16>
    ensures { result ≡ named (told row.now) }
{
    match row {
        Row::Relocation { relocation, .. } => relocation.target.section(),
        Row::Root { section, .. } => Some(*section),
        _ => None,
    }
}

// Where the row of each section begins, `None` where there is none.
#[derive(Drop)]
pub(crate) struct Starts {
    places: [Option<usize>; 1024],
}

impl Starts {
    // No section has a row.
    pub fn none() -> Starts
        ensures { result.places ≡ no_notes }
    {
        Starts {
            places: [None; 1024],
        }
    }

    // Where the row of section `s` begins.
    pub fn of(&self, s: u16) -> Option<usize>
        ensures { result ≡ slice_index_or self.now.places s None }
    {
        *self.places.get(usize::from(s))?
    }

    // Notes where a section's row begins.
    fn note(&mut self, row: &Row<'_>, at: usize)
        ensures { self.new.places ≡ note_entry (told row.now) at self.old.places }
    {
        if let Row::Section { number, .. } = row {
            // by index: of a write through `get_mut` a proof knows the length alone
            let s = usize::from(*number);
            if s < 1024 {
                self.places[s] = Some(at);
            }
        }
    }

    // The row names a section without a start.
    fn lack(&self, row: &Row<'_>) -> bool
        ensures { result ≡ unnoted self.now.places (named (told row.now)) }
    {
        named(row).is_some_and(|s| self.of(s).is_none())
    }
}

// The starts of the sections' rows, or the refusal of the first row that does not form.
pub(crate) fn scan(text: &[u8]) -> Result<Starts, Fault>
    ensures { starts_in result ≡ scanned text.now }
{
    let mut starts = Starts::none();
    let mut state = State::Start;
    for placed in Rows::of(text) {
        let (at, row) = placed?;
        state = state.advance(&row).ok_or(bad_row(at))?;
        starts.note(&row, at);
    }
    if state.is_done() {
        Ok(starts)
    } else {
        Err(bad_row(text.len()))
    }
}

// The refusal of the first row that does not form or that names a section without a start, if there is one.
pub(crate) fn check_targets(text: &[u8], starts: &Starts) -> Result<(), Fault>
    ensures { result ≡ targets_from starts.now.places 0 (lines text.now) }
{
    for placed in Rows::of(text) {
        let (at, row) = placed?;
        if starts.lack(&row) {
            return Err(dangling(at));
        }
    }
    Ok(())
}
