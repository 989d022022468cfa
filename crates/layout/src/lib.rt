// The order of a table's rows: what may come next, row by row.

#![tactic(auto)]

ghost use Rattle.std.specs.Prelude.{◌≡◌, ◌<◌, ◌≤◌, min, if◌then◌else◌, Some, None, nat_eq};
ghost use Rattle.row.specs.Entry.{section, relocation, root, end};
ghost use Rattle.row.specs.Told.{told};
ghost use Rattle.layout.specs.Layout.{bytes_length, relocation_place};
ghost use Rattle.layout.specs.Order.{step, step_start, step_open, opened, settled, after_bytes, is_done};
ghost use Rattle.layout.specs.Verdict.{ToldApart, EmptyTable};

use model::{Record, Relocation};
use row::Row;

// What is still due between the first row of a table and its last.
#[derive(Clone, Copy, Default, PartialEq, Eq, Debug)]
pub struct Due {
    // how many sections there are, absent ones included
    pub sections: u16,
    // the lowest number that the next section may have; the count of sections once a root has come
    pub next: u16,
    // the sections that have come
    pub seen: u16,
    // the roots to come
    pub roots: u16,
    // of the section that came last: its size, and its bytes and relocations to come
    pub size: u16,
    pub bytes: u16,
    pub relocations: u16,
}

impl Due {
    // What is due behind a first row that tells these counts.
    fn opened(sections: u16, roots: u16) -> Due
        ensures { result ≡ opened sections roots }
    {
        Due {
            sections,
            roots,
            ..Due::default()
        }
    }

    // Nothing is due of the section that came last.
    fn is_settled(&self) -> bool
        ensures { result ≡ settled self.now }
    {
        self.bytes == 0 && self.relocations == 0
    }

    fn take_section(&self, number: u16, info: &Record) -> Option<State>
        ensures { result ≡ step_open self.now (section number info.now) }
    {
        let may_come = self.is_settled()
            && self.seen < self.sections
            && self.next <= number
            && number < self.sections;
        may_come.then(|| {
            State::Open(Due {
                next: number + 1,
                seen: self.seen + 1,
                size: info.size,
                bytes: info.size,
                relocations: info.relocations,
                ..*self
            })
        })
    }

    // A row of `count` bytes: sixteen, or all that are left.
    fn take_bytes(&self, count: u16) -> Option<State>
        ensures { result ≡ (if nat_eq count (min 16 self.now.bytes) then Some (State.Open (after_bytes self.now count)) else None) }
    {
        (count == self.bytes.min(16)).then(|| {
            State::Open(Due {
                bytes: self.bytes - count,
                ..*self
            })
        })
    }

    fn take_relocation(&self, entry: &Relocation) -> Option<State>
        ensures { result ≡ step_open self.now (relocation entry.now) }
    {
        let may_come = self.bytes == 0 && self.relocations > 0 && entry.offset < self.size;
        may_come.then(|| {
            State::Open(Due {
                relocations: self.relocations - 1,
                ..*self
            })
        })
    }

    fn take_root(&self, number: u16) -> Option<State>
        ensures { result ≡ step_open self.now (root number) }
    {
        (self.is_settled() && self.roots > 0).then(|| {
            State::Open(Due {
                next: self.sections,
                roots: self.roots - 1,
                ..*self
            })
        })
    }

    fn take_end(&self, present: u16) -> Option<State>
        ensures { result ≡ step_open self.now (end present) }
    {
        (self.is_settled() && self.roots == 0 && present == self.seen).then_some(State::Done)
    }

    // What a row leads to, if it may come now.
    fn take(&self, row: &Row<'_>) -> Option<State>
        ensures { result ≡ step_open self.now (told row.now) }
    {
        match row {
            Row::Header { .. } => None,
            Row::Section { number, record, .. } => self.take_section(*number, record),
            Row::Bytes { count, .. } => self.take_bytes(*count),
            Row::Relocation { relocation, .. } => self.take_relocation(relocation),
            Row::Root { section, .. } => self.take_root(*section),
            Row::End { present, .. } => self.take_end(*present),
        }
    }
}

// How far the rows of a table have come.
#[derive(Clone, Copy, PartialEq, Eq, Debug)]
pub enum State {
    Start,
    Open(Due),
    Done,
}

// What the first row leads to.
fn begin(row: &Row<'_>) -> Option<State>
    ensures { result ≡ step_start (told row.now) }
{
    let Row::Header {
        sections,
        roots,
        ..
    } = row
    else {
        return None;
    };
    Some(State::Open(Due::opened(*sections, *roots)))
}

impl State {
    // What a row leads to, if it may come now.
    pub fn advance(&self, row: &Row<'_>) -> Option<State>
        ensures { result ≡ step self.now (told row.now) }
    {
        match self {
            State::Start => begin(row),
            State::Open(due) => due.take(row),
            State::Done => None,
        }
    }

    // Whether a table may end here.
    pub fn is_done(&self) -> bool
        ensures { result ≡ is_done self.now }
    {
        *self == State::Done
    }
}

// How long the rows are, of bytes one with all sixteen.
pub const HEADER_ROW: usize = 26;

pub const SECTION_ROW: usize = 74;

pub const BYTES_ROW: usize = 66;

pub const RELOCATION_ROW: usize = 62;

pub const ROOT_ROW: usize = 14;

pub const END_ROW: usize = 14;

// Where the size stands in a section's row, and how wide the column of one byte is.
pub const SIZE_COLUMN: usize = 37;

pub const BYTE_WIDTH: usize = 4;

// How long the rows of `size` bytes are: four columns for each byte, and a letter and byte 10 for each sixteen.
pub fn bytes_length(size: u16) -> usize
    ensures value { result ≡ bytes_length size }
    ensures bound { result < 1000000 }
{
    BYTE_WIDTH * usize::from(size) + 2 * usize::from(size).div_ceil(16)
}

// Where the row of relocation `j` of a section with `size` bytes is, from its first row on; where `j` is the count of its relocations,
// how long its rows are.
pub fn relocation_place(size: u16, j: u16) -> usize
    ensures value { result ≡ relocation_place size j }
    ensures bound { result ≤ 5000000 }
{
    SECTION_ROW + (bytes_length(size) + RELOCATION_ROW * usize::from(j))
}

// Graphs with the same table are the same.
pub fn tables_differ()
    ensures { ToldApart }
{}

// The table of the empty graph has 40 bytes.
pub fn empty_table()
    ensures { EmptyTable }
{}
