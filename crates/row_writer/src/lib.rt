// The rows of a table written into a buffer. Each writer takes the part of the buffer that starts where the last row
// ended, answers how long its row is, and leaves the rest of the buffer as it was. A buffer that is too short is
// refused, and nothing is written.

#![tactic(auto)]

ghost use Rattle.std.specs.Prelude.{◌≡◌, ℕ, ◌≤◌, ℤ, map, length, sum_by, take, pos};
ghost use Rattle.std.specs.Fmt.{signed_decimal};
ghost use Rattle.column.specs.Columns.{column, columns};
ghost use Rattle.row.specs.Entry.{header, section, bytes, relocation as relocated, root, end, render, target_kind, target_number};
ghost use Rattle.row_writer.specs.declared.Number.TheVariants.{Natural, Signed};
ghost use Rattle.row_writer.specs.Writing.{wrote, put, over, row_text, value, fault_row, moved_row, Wide};

use column::{digits, write_column, write_natural};
use fault::{Fault, Kind, Layer};
use model::{Record, Relocation, Target};

// A number to be written.
#[derive(Clone, Copy, PartialEq, Eq, Debug)]
pub enum Number {
    Natural(u64),
    Signed(i64),
}

// One impl for all that goes `Into<u64>` would overlap with the one for `i64`, so each width has its own.
impl From<u8> for Number {
    ghost from_gives = { λ n r. r ≡ Natural n };

    fn from(byte: u8) -> Number {
        Number::Natural(u64::from(byte))
    }
}

impl From<u16> for Number {
    ghost from_gives = { λ n r. r ≡ Natural n };

    fn from(n: u16) -> Number {
        Number::Natural(u64::from(n))
    }
}

impl From<u32> for Number {
    ghost from_gives = { λ n r. r ≡ Natural n };

    fn from(word: u32) -> Number {
        Number::Natural(u64::from(word))
    }
}

impl From<u64> for Number {
    ghost from_gives = { λ n r. r ≡ Natural n };

    fn from(long: u64) -> Number {
        Number::Natural(long)
    }
}

impl From<i64> for Number {
    ghost from_gives = { λ z r. r ≡ Signed z };

    fn from(z: i64) -> Number {
        Number::Signed(z)
    }
}

// What a fold map tells of a section, with the number that it has there.
#[derive(Clone, Copy, PartialEq, Eq, Debug)]
pub enum Outcome {
    // it is found at its own number
    Own = 1,
    // at another
    Other = 2,
    // nowhere: it was swept
    Swept = 3,
}

// How many bytes a number is written with, its minus included.
#[tactic(auto, using(crate::proofs::Widths::signed_length))]
fn signed_size(z: i64) -> usize
    ensures long { result ≡ length (signed_decimal z) }
    ensures few { result ≤ 21 }
{
    digits(z.unsigned_abs()) + usize::from(z < 0)
}

// What the columns of a row hold: bytes in four columns each, or other numbers in twelve.
trait Cell: Copy {
    // How many columns are due.
    ghost due: { ℕ };

    // The number that is written.
    ghost integer: { Self → ℤ };

    // How many columns the number takes: it is never cut.
    fn width(self) -> usize
        ensures { Wide due (integer self) result };

    // Fills the slice with the number, which fits.
    fn fill(self, out: &mut [u8])
        requires { length (signed_decimal (integer self)) ≤ length out.old }
        ensures { out.new ≡ column (length out.old) (integer self) };
}

impl Cell for u8 {
    ghost due = { 4 };

    ghost integer = { pos };

    fn width(self) -> usize {
        4
    }

    fn fill(self, out: &mut [u8]) {
        write_natural(u64::from(self), out).unwrap()
    }
}

impl Cell for Number {
    ghost due = { 12 };

    ghost integer = { value };

    fn width(self) -> usize {
        let size = match self {
            Number::Natural(n) => digits(n),
            Number::Signed(z) => signed_size(z),
        };
        size.max(12)
    }

    fn fill(self, out: &mut [u8]) {
        match self {
            Number::Natural(n) => write_natural(n, out).unwrap(),
            Number::Signed(z) => write_column(z, out).unwrap(),
        }
    }
}

// How long the columns of some numbers are.
fn columns_length<T: Cell>(cells: &[T]) -> usize
    requires { length cells.now ≤ 16 }
    ensures long { result ≡ sum_by (λ cell. length (column T.due (T.integer cell))) cells.now }
    ensures few { result ≤ 336 }
{
    cells.iter().map(|cell| cell.width()).sum()
}

// Writes the columns of some numbers over the front of the buffer, and answers where they end. Each part of the buffer
// starts where the last column ended, which no iterator over parts gives.
fn write_columns<T: Cell>(cells: &[T], out: &mut [u8]) -> usize
    requires { length (columns T.due (map T.integer cells.now)) ≤ length out.old }
    ensures end { result ≡ length (columns T.due (map T.integer cells.now)) }
    ensures text { out.new ≡ over (columns T.due (map T.integer cells.now)) out.old }
{
    let mut at = 0;
    for cell in cells {
        let past = at + cell.width();
        cell.fill(&mut out[at..past]);
        at = past;
    }
    at
}

// Writes a row over the front of a buffer that has room for it.
#[tactic(auto, using(crate::proofs::Filled::row_filled))]
fn fill_row<T: Cell>(letter: u8, cells: &[T], out: &mut [u8])
    requires { length (row_text letter T.due (map T.integer cells.now)) ≤ length out.old }
    ensures { out.new ≡ over (row_text letter T.due (map T.integer cells.now)) out.old }
{
    let end = write_columns(cells, &mut out[1..]);
    out[0] = letter;
    out[1 + end] = b'\n';
}

// Writes a letter, numbers in columns, and byte 10.
fn write_row<T: Cell>(letter: u8, cells: &[T], out: &mut [u8]) -> Result<usize, Fault>
    requires { length cells.now ≤ 16 }
    ensures answer { result ≡ wrote (row_text letter T.due (map T.integer cells.now)) out.old }
    ensures text { out.new ≡ put (row_text letter T.due (map T.integer cells.now)) out.old }
{
    let needed = columns_length(cells) + 2;
    // the test that the writer of a table makes of its table: a function for the two would be no shorter
    if out.len() < needed {
        return Err(Fault::new(Kind::Small, needed as u64, Layer::Output));
    }
    fill_row(letter, cells, out);
    Ok(needed)
}

// The H row.
pub fn write_header(sections: u16, roots: u16, out: &mut [u8]) -> Result<usize, Fault>
    ensures answer { result ≡ wrote (render (header sections roots)) out.old }
    ensures text { out.new ≡ put (render (header sections roots)) out.old }
{
    write_row(b'H', &[Number::from(sections), Number::from(roots)], out)
}

// The S row. The number of a setting is the table's, and the variants stand in its order.
pub fn write_section(number: u16, record: &Record, out: &mut [u8]) -> Result<usize, Fault>
    ensures answer { result ≡ wrote (render (section number «record».now)) out.old }
    ensures text { out.new ≡ put (render (section number «record».now)) out.old }
{
    let cells = [
        Number::from(number),
        Number::from(record.flags),
        Number::from(record.alignment),
        Number::from(record.size),
        Number::from(record.relocations),
        Number::from(record.setting as u64),
    ];
    write_row(b'S', &cells, out)
}

// The kind of a target, and its number. The numbers are the table's and not the model's, whose crate alone could have a
// `From` of it.
fn target_numbers(target: Target) -> (u16, u16)
    ensures kind { result.0 ≡ target_kind target }
    ensures number { result.1 ≡ target_number target }
{
    match target {
        Target::Section(number) => (0, number),
        Target::Outside(name) => (1, name),
    }
}

// The R row.
pub fn write_relocation(relocation: &Relocation, out: &mut [u8]) -> Result<usize, Fault>
    ensures answer { result ≡ wrote (render (relocated relocation.now)) out.old }
    ensures text { out.new ≡ put (render (relocated relocation.now)) out.old }
{
    let (kind, number) = target_numbers(relocation.target);
    let cells = [
        Number::from(relocation.offset),
        Number::from(relocation.kind),
        Number::from(kind),
        Number::from(number),
        Number::from(relocation.displacement),
    ];
    write_row(b'R', &cells, out)
}

// The T row.
pub fn write_root(number: u16, out: &mut [u8]) -> Result<usize, Fault>
    ensures answer { result ≡ wrote (render (root number)) out.old }
    ensures text { out.new ≡ put (render (root number)) out.old }
{
    write_row(b'T', &[Number::from(number)], out)
}

// The E row.
pub fn write_end(present: u16, out: &mut [u8]) -> Result<usize, Fault>
    ensures answer { result ≡ wrote (render (end present)) out.old }
    ensures text { out.new ≡ put (render (end present)) out.old }
{
    write_row(b'E', &[Number::from(present)], out)
}

// The F row, which tells a refusal. A place of more than 12 digits takes as many columns as it has digits.
pub fn write_fault(fault: &Fault, out: &mut [u8]) -> Result<usize, Fault>
    ensures answer { result ≡ wrote (fault_row fault.now) out.old }
    ensures text { out.new ≡ put (fault_row fault.now) out.old }
{
    let cells = [
        Number::from(u8::from(fault.kind)),
        Number::from(fault.place),
        Number::from(u8::from(fault.layer)),
    ];
    write_row(b'F', &cells, out)
}

// The M row, which tells in a fold map where a section went.
pub fn write_moved(
    section: u16,
    outcome: Outcome,
    place: u16,
    out: &mut [u8],
) -> Result<usize, Fault>
    ensures answer { result ≡ wrote (moved_row section outcome place) out.old }
    ensures text { out.new ≡ put (moved_row section outcome place) out.old }
{
    let cells = [
        Number::from(section),
        Number::from(outcome as u8),
        Number::from(place),
    ];
    write_row(b'M', &cells, out)
}

// The B row of the first sixteen values, as many as a row takes.
pub fn write_bytes(values: &[u8], out: &mut [u8]) -> Result<usize, Fault>
    ensures answer { result ≡ wrote (render (bytes (take 16 values.now))) out.old }
    ensures text { out.new ≡ put (render (bytes (take 16 values.now))) out.old }
{
    write_row(b'B', &values[..values.len().min(16)], out)
}
