// Rows of a section table.

#![tactic(auto)]

ghost use Rattle.std.specs.Prelude.{◌≡◌, slice_index};
ghost use Rattle.row.specs.Reading.{setting_of, target_of, counted, row_bytes, record_at, target_at, relocation_at};
ghost use Rattle.row.specs.Reading.{read_header, read_section, read_bytes, read_relocation, read_root, read_end, read_by, read_row};
ghost use Rattle.row.specs.Told.{part_of, answer, Cut, Occupies, ReadBack, OnlyWritten, EndsOnce, AsLong};

use model::{Record, Relocation, Setting, Target};
pub use row_part::Cause;
use row_part::{alignment_at, byte_at, displacement_at, end_at, short_at, word_at};

// A row of a table, with the part of the text that it occupies, byte 10 included.
// `part` in each case: an enum whose cases borrow the text was asked for.
#[derive(Clone, Copy, PartialEq, Eq, Debug)]
pub enum Row<'a> {
    Header {
        part: &'a [u8],
        sections: u16,
        roots: u16,
    },
    Section {
        part: &'a [u8],
        number: u16,
        record: Record,
    },
    Bytes {
        part: &'a [u8],
        count: u16,
    },
    Relocation {
        part: &'a [u8],
        relocation: Relocation,
    },
    Root {
        part: &'a [u8],
        section: u16,
    },
    End {
        part: &'a [u8],
        present: u16,
    },
}

impl<'a> Row<'a> {
    // The part of the text that the row occupies.
    pub fn part(&self) -> &'a [u8]
        ensures { result.now ≡ part_of self.now }
    {
        match self {
            Row::Header { part, .. }
            | Row::Section { part, .. }
            | Row::Bytes { part, .. }
            | Row::Relocation { part, .. }
            | Row::Root { part, .. }
            | Row::End { part, .. } => part,
        }
    }
}

// A row's text is read as what it tells, nothing else is read, a row ends at its first byte 10, and its length depends
// on its kind alone.
pub fn exact()
    ensures back { ReadBack }
    ensures only { OnlyWritten }
    ensures once { EndsOnce }
    ensures long { AsLong }
{}

// Reads the row that the text begins with, by its letter. What follows the row does not matter.
// The letter by char literals: a form that was asked for.
#[tactic(auto, using(crate::proofs::Rows::occupies), unfolding(crate::specs::Reading::read_row))]
pub fn read_row(text: &[u8]) -> Result<Row<'_>, Cause>
    ensures row { answer result ≡ read_row text.now }
    ensures part { Occupies result }
{
    match char::from(byte_at(text, 0)) {
        'H' => read_header(text),
        'S' => read_section(text),
        'B' => read_bytes(text),
        'R' => read_relocation(text),
        'T' => read_root(text),
        'E' => read_end(text),
        _ => Err(Cause::Letter),
    }
}

// The setting that a number stands for. The numbers belong to the table and not to the model, whose crate alone could
// have a `From` or `TryFrom`.
fn setting_of(number: u16) -> Setting
    ensures { result ≡ setting_of number }
{
    match number {
        0 => Setting::Foldable,
        _ => Setting::Pinned,
    }
}

// The target that a kind and a number stand for, for which the same holds.
fn target_of(kind: u16, number: u16) -> Target
    ensures { result ≡ target_of kind number }
{
    match kind {
        0 => Target::Section(number),
        _ => Target::Outside(number),
    }
}

// What an S row tells after the section's number.
fn record_at(text: &[u8]) -> Result<Record, Cause>
    ensures { result ≡ record_at text.now }
{
    let flags = word_at(12, text, 13, 4294967295)?;
    let alignment = alignment_at(text, 25)?;
    let size = short_at(12, text, 37, 65535)?;
    let relocations = short_at(12, text, 49, 65535)?;
    let pinned = short_at(12, text, 61, 1)?;
    Ok(Record {
        flags,
        alignment,
        size,
        relocations,
        setting: setting_of(pinned),
    })
}

fn target_at(text: &[u8]) -> Result<Target, Cause>
    ensures { result ≡ target_at text.now }
{
    let kind = short_at(12, text, 25, 1)?;
    let number = short_at(12, text, 37, 65535)?;
    Ok(target_of(kind, number))
}

fn relocation_at(text: &[u8]) -> Result<Relocation, Cause>
    ensures { result ≡ relocation_at text.now }
{
    let offset = short_at(12, text, 1, 65534)?;
    let kind = word_at(12, text, 13, 4294967295)?;
    let target = target_at(text)?;
    let displacement = displacement_at(text, 49, target)?;
    Ok(Relocation {
        offset,
        kind,
        target,
        displacement,
    })
}

fn read_header(text: &[u8]) -> Result<Row<'_>, Cause>
    ensures row { answer result ≡ read_header text.now }
    ensures cut { Cut text.now result }
{
    let sections = short_at(12, text, 1, 1024)?;
    let roots = short_at(12, text, 13, 4096)?;
    let part = end_at(text, 25)?;
    Ok(Row::Header {
        part,
        sections,
        roots,
    })
}

fn read_section(text: &[u8]) -> Result<Row<'_>, Cause>
    ensures row { answer result ≡ read_section text.now }
    ensures cut { Cut text.now result }
{
    let number = short_at(12, text, 1, 1023)?;
    let record = record_at(text)?;
    let part = end_at(text, 73)?;
    Ok(Row::Section {
        part,
        number,
        record,
    })
}

// How many bytes a B row has. A chain would be no plainer: each step may end the row, refuse it or go on.
fn byte_count(text: &[u8]) -> Result<u16, Cause>
    ensures { result ≡ counted (row_bytes text.now) }
{
    short_at(4, text, 1, 255)?;
    for count in 1..16u16 {
        let at = 1 + 4 * usize::from(count);
        if byte_at(text, at) == b'\n' {
            return Ok(count);
        }
        short_at(4, text, at, 255)?;
    }
    end_at(text, 65)?;
    Ok(16)
}

#[tactic(auto, using(crate::proofs::Rows::bytes_refused, crate::proofs::Rows::bytes_counted, crate::proofs::Rows::length_values))]
fn read_bytes(text: &[u8]) -> Result<Row<'_>, Cause>
    ensures row { answer result ≡ read_bytes text.now }
    ensures cut { Cut text.now result }
{
    let count = byte_count(text)?;
    let part = &text[..2 + 4 * usize::from(count)];
    Ok(Row::Bytes { part, count })
}

fn read_relocation(text: &[u8]) -> Result<Row<'_>, Cause>
    ensures row { answer result ≡ read_relocation text.now }
    ensures cut { Cut text.now result }
{
    let relocation = relocation_at(text)?;
    let part = end_at(text, 61)?;
    Ok(Row::Relocation { part, relocation })
}

fn read_root(text: &[u8]) -> Result<Row<'_>, Cause>
    ensures row { answer result ≡ read_root text.now }
    ensures cut { Cut text.now result }
{
    let section = short_at(12, text, 1, 65535)?;
    let part = end_at(text, 13)?;
    Ok(Row::Root { part, section })
}

fn read_end(text: &[u8]) -> Result<Row<'_>, Cause>
    ensures row { answer result ≡ read_end text.now }
    ensures cut { Cut text.now result }
{
    let present = short_at(12, text, 1, 1024)?;
    let part = end_at(text, 13)?;
    Ok(Row::End { part, present })
}
