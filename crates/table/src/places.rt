// Reading at computed places: rows have known lengths, so no question searches.
ghost use Rattle.std.specs.Prelude.{◌≡◌, ◌-◌, ◌<◌, ◌≤◌, ℕ, List, length, take, drop};
ghost use Rattle.column.specs.Columns.{read_column};
ghost use Rattle.graph.specs.Bytes.{digest};
ghost use Rattle.row.specs.Reading.{read_row};
ghost use Rattle.table.specs.Places.{sections_told, roots_told, record_told, relocation_told, root_told};
ghost use Rattle.table.specs.Places.{byte_told, byte_place, size_in, size_told, byte_in, Tells, byte_rows_in, relocation_in, root_in};

use column::read_column;
use graph::mix;
use layout::{
    BYTE_WIDTH, BYTES_ROW, END_ROW, ROOT_ROW, SECTION_ROW, SIZE_COLUMN, bytes_length,
    relocation_place,
};
use model::{Record, Relocation};
use row::{Row, read_row};

// How many sections there are, and how many roots.
#[derive(Clone, Copy, Default, PartialEq, Eq, Debug)]
pub(crate) struct Counts {
    pub sections: u16,
    pub roots: u16,
}

// The counts that the first row tells, 0 where there is none.
pub(crate) fn told_counts(text: &[u8]) -> Counts
    ensures sections { result.sections ≡ sections_told (read_row text.now) }
    ensures roots { result.roots ≡ roots_told (read_row text.now) }
{
    let Ok(
        Row::Header {
            sections,
            roots,
            ..
        },
    ) = read_row(text)
    else {
        return Counts::default();
    };
    Counts { sections, roots }
}

// The digest of no bytes, from which that of any others goes on.
pub(crate) const NO_BYTES: u64 = 14695981039346656037;

// Where the columns of byte `i` of a section are, from its row on.
fn byte_place(i: u16) -> usize
    ensures { result ≡ byte_place i }
{
    let row = usize::from(i / 16);
    let column = usize::from(i % 16);
    SECTION_ROW + (BYTES_ROW * row + (1 + BYTE_WIDTH * column))
}

// The text from a place on, none past the end.
fn tail(text: &[u8], at: usize) -> &[u8]
    ensures { result.now ≡ drop at text.now }
{
    text.get(at..).unwrap_or(&[])
}

// The text from a section's row on: that row, the rows of its bytes and of its relocations, and what follows them.
#[derive(Clone, Copy)]
pub(crate) struct SectionRows<'a> {
    text: &'a [u8],
}

impl<'a> SectionRows<'a> {
    // The rows of the section whose row begins at a place.
    pub fn at(text: &'a [u8], start: usize) -> SectionRows<'a>
        ensures { result.text.now ≡ drop start text.entry.now }
    {
        SectionRows {
            text: tail(text, start),
        }
    }

    // The record in the section's row. It, `relocation_at` and `root_at` are three: each names its own kind of row and field.
    pub fn record(&self) -> Option<Record>
        ensures { result ≡ record_told (read_row self.now.text.now) }
    {
        let Ok(Row::Section { record, .. }) = read_row(self.text) else {
            return None;
        };
        Some(record)
    }

    // The number in the columns from a place on. Apart from the `column_at` of `row_part`, which tells a cause: here none is told, and
    // what is cut short is read as it is, since the text was accepted. It and the two after the next are inlined, as in `row_part`.
    #[inline(always)]
    fn column(&self, at: usize, width: usize) -> Option<i64>
        requires { width ≤ 18 }
        ensures { result ≡ read_column (take width (drop at self.now.text.now)) }
    {
        let rest = tail(self.text, at);
        read_column(&rest[..width.min(rest.len())])
    }

    // How many bytes the section's row tells, without reading its other numbers.
    fn size(&self) -> Option<u16>
        ensures { result ≡ size_told (read_column (take 12 (drop 37 self.now.text.now))) }
    {
        u16::try_from(self.column(SIZE_COLUMN, 12)?).ok()
    }

    // The byte in the four columns from a place on.
    #[inline(always)]
    fn byte_at(&self, at: usize) -> Option<u8>
        ensures { result ≡ byte_told (read_column (take 4 (drop at self.now.text.now))) }
    {
        u8::try_from(self.column(at, BYTE_WIDTH)?).ok()
    }

    // Byte `i` of the section.
    #[inline(always)]
    pub fn byte(&self, i: u16) -> Option<u8>
        ensures { result ≡ byte_in self.now.text.now i }
    {
        if i >= self.size()? {
            return None;
        }
        self.byte_at(byte_place(i))
    }

    // The digest of the section's bytes. Its size is read once, and not for each byte.
    pub fn digest(&self) -> u64
        ensures { (bs : List ℕ) → Tells self.now.text.now bs → result ≡ digest bs }
    {
        let mut digest = NO_BYTES;
        for i in 0..self.size().unwrap_or(0) {
            if let Some(x) = self.byte_at(byte_place(i)) {
                digest = mix(digest, u64::from(x));
            }
        }
        digest
    }

    // The rows of the section's bytes.
    #[tactic(auto, unfolding(crate::specs::Places::byte_rows_in))]
    pub fn byte_rows(&self) -> &'a [u8]
        ensures { result.now ≡ byte_rows_in self.now.text.now }
    {
        let rows = tail(self.text, SECTION_ROW);
        let length = bytes_length(self.size().unwrap_or(0));
        &rows[..length.min(rows.len())]
    }

    fn relocation_at(&self, at: usize) -> Option<Relocation>
        ensures { result ≡ relocation_told (read_row (drop at self.now.text.now)) }
    {
        let Ok(Row::Relocation { relocation, .. }) = read_row(tail(self.text, at)) else {
            return None;
        };
        Some(relocation)
    }

    // Relocation `j` of the section.
    pub fn relocation(&self, j: u16) -> Option<Relocation>
        ensures { result ≡ relocation_in self.now.text.now (record_told (read_row self.now.text.now)) j }
    {
        let section = self.record()?;
        if j >= section.relocations {
            return None;
        }
        self.relocation_at(relocation_place(section.size, j))
    }
}

fn root_at(text: &[u8], at: usize) -> Option<u16>
    ensures { result ≡ root_told (read_row (drop at text.now)) }
{
    let Ok(Row::Root { section, .. }) = read_row(tail(text, at)) else {
        return None;
    };
    Some(section)
}

// Root `j`: the rows of the roots are the last but one of the text.
pub(crate) fn root_in(text: &[u8], j: u16) -> Option<u16>
    ensures { result ≡ root_in text.now (roots_told (read_row text.now)) j }
{
    let count = told_counts(text).roots;
    if j >= count {
        return None;
    }
    let left = ROOT_ROW * usize::from(count - j) + END_ROW;
    root_at(text, text.len().saturating_sub(left))
}
