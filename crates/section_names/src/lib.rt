// The names of the sections of an ELF64 file, read without trust: of any bytes at all, also of those that the reader of
// objects refuses.

#![tactic(auto)]

ghost use Rattle.std.specs.Prelude.{◌≡◌, ◌<◌, length, position, IfSome, option_copied};
ghost use Rattle.section_names.specs.Names.{header_place_of, table_of, is_zero, text_at, name_of};
ghost use Rattle.section_names.specs.Laws.{OnlyNames, NamesTold};
ghost use Rattle.section_names.specs.Examples.{ExamplesHold};

use elf::{index, read_header};
use field::read;

// Where the header of section `i` begins, where there is one and it lies in the file.
fn header_place(file: &[u8], i: u16) -> Option<u64>
    ensures { result ≡ header_place_of file.now i }
{
    let count: u16 = read(file, 60).ok()?;
    let first: u64 = read(file, 40).ok()?;
    let place = first.checked_add(64 * u64::from(i))?;
    let lies_in = i < count && place.checked_add(64)? <= file.len() as u64;
    lies_in.then_some(place)
}

// The table of names, where there is one and it lies in the file.
fn table(file: &[u8]) -> Option<&[u8]>
    ensures { option_copied result ≡ table_of file.now }
{
    let number: u16 = read(file, 62).ok()?;
    if number == index::UNDEFINED {
        return None;
    }
    let header = read_header(file, header_place(file, number)?).ok()?;
    file.get(header.offset as usize..)?
        .get(..header.size as usize)
}

// The index of the first zero.
fn first_zero(bytes: &[u8]) -> Option<usize>
    ensures right { result ≡ position is_zero bytes.now }
    ensures inside { IfSome result (λ i. i < length bytes.now) }
{
    bytes.iter().position(|x| *x == 0)
}

// The bytes from `place` on before the first zero, where there is one.
fn text(table: &[u8], place: u32) -> Option<&[u8]>
    ensures { option_copied result ≡ text_at place table.now }
{
    let rest = table.get(place as usize..)?;
    let end = first_zero(rest)?;
    Some(&rest[..end])
}

// The name of a section, a zero byte not included. None where there is no such section, or no table of names, or where a
// header, the table or the name with its zero does not lie in the file.
pub fn section_name(file: &[u8], section: u16) -> Option<&[u8]>
    ensures { option_copied result ≡ name_of file.now section }
{
    let place: u32 = read(file, header_place(file, section)?).ok()?;
    text(table(file)?, place)
}

// What is told is the name that stands in the table of names, none of its bytes 0 and a 0 after them, and a name that
// stands there is told.
pub fn exact()
    ensures told { NamesTold }
    ensures only { OnlyNames }
{}

// The sections of a small file, named by the definition.
pub fn examples_hold()
    ensures { ExamplesHold }
{}
