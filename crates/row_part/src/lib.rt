// The parts of a row of a table: a number in its columns with its range, and the row's end. Each is read at a place of
// a text, or what is bad there is told. The text and the place are two arguments: columns stand at fixed places of a row,
// which each call names, so a struct of both would be made for one call.

#![tactic(auto)]

ghost use Rattle.std.specs.Prelude.{◌≡◌, ◌≤◌, IfOk, slice_index};
ghost use Rattle.model.specs.Laws.{highest};
ghost use Rattle.row_part.specs.Parts.{column_at, natural_at, alignment_at, displacement_at, end_at, Ended};

use column::read_column;
use model::{Target, is_alignment};

// Which part of a row is bad, from the left.
#[derive(Clone, Copy, PartialEq, Eq, Debug)]
pub enum Cause {
    // the letter
    Letter,
    // the form of a column, which may also be cut short
    Column,
    // the range of a number
    Range,
    // the row's end
    End,
}

// The byte at a place, 0 past the end. It is compared with byte 10 alone, so 0 is as good as an option.
pub fn byte_at(text: &[u8], at: usize) -> u8
    ensures { result ≡ slice_index text.now at }
{
    text.get(at).copied().unwrap_or(0)
}

// The number in the columns from `at` on, of any width. It and the two after it are inlined: in a program with several readers columns
// are read a sixth more slowly without the hint.
#[inline(always)]
pub fn column_at(width: usize, text: &[u8], at: usize) -> Result<i64, Cause>
    ensures { result ≡ column_at width text.now at }
{
    let rest = text.get(at..).ok_or(Cause::Column)?;
    let column = rest.get(..width).ok_or(Cause::Column)?;
    read_column(column).ok_or(Cause::Column)
}

// A natural number of 32 bits, not above the limit.
#[inline(always)]
#[tactic(auto, unfolding(crate::specs::Parts::natural_at))]
pub fn word_at(width: usize, text: &[u8], at: usize, limit: u32) -> Result<u32, Cause>
    ensures value { result ≡ natural_at width text.now at limit }
    ensures low { IfOk result (λ n. n ≤ limit) }
{
    match u32::try_from(column_at(width, text, at)?) {
        Ok(number) if number <= limit => Ok(number),
        _ => Err(Cause::Range),
    }
}

// A natural number of 16 bits, not above the limit. One generic function for both widths would need a trait with a law,
// and an impl of it for each, which is longer than this.
#[inline(always)]
pub fn short_at(width: usize, text: &[u8], at: usize, limit: u16) -> Result<u16, Cause>
    ensures { result ≡ natural_at width text.now at limit }
{
    let number = word_at(width, text, at, u32::from(limit))?;
    Ok(number as u16)
}

// A power of two from 1 to 65,536.
pub fn alignment_at(text: &[u8], at: usize) -> Result<u32, Cause>
    ensures { result ≡ alignment_at text.now at }
{
    let value = word_at(12, text, at, 65536)?;
    if is_alignment(u64::from(value)) {
        Ok(value)
    } else {
        Err(Cause::Range)
    }
}

// The highest displacement: beyond an outside name's, a section's has room for a place in the section.
fn highest(target: Target) -> i64
    ensures { result ≡ highest target }
{
    match target {
        Target::Section(_) => 2147549182,
        Target::Outside(_) => 2147483647,
    }
}

// A displacement, whose range depends on the target.
pub fn displacement_at(text: &[u8], at: usize, target: Target) -> Result<i64, Cause>
    ensures { result ≡ displacement_at text.now at target }
{
    let number = column_at(12, text, at)?;
    if (-2147483648..=highest(target)).contains(&number) {
        Ok(number)
    } else {
        Err(Cause::Range)
    }
}

// The part of the text up to the byte 10 that is due at a place.
pub fn end_at(text: &[u8], at: usize) -> Result<&[u8], Cause>
    ensures { Ended text.now at result }
{
    if byte_at(text, at) == b'\n' {
        Ok(&text[..=at])
    } else {
        Err(Cause::End)
    }
}
