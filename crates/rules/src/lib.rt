// The rules that an ELF64 object has to meet, one section, symbol, entry or number at a time. The rules themselves stand in
// specs/Rules.antt and specs/Listing.antt, and all of them in their order in specs/Verdict.antt.

#![tactic(auto)]

ghost use Rattle.std.specs.Prelude.{◌≡◌, ◌+◌, ◌*◌, ◌/◌, ◌<◌, ◌≤◌, length, is_some, Some, None, Ok, MatchResult, ◌==◌, nat_le, slice_index_or};
ghost use Rattle.checklist.specs.Checks.{first_fault, answer};
ghost use Rattle.elf.specs.Layout.{sections, place, section, symbol_at, entry_at};
ghost use Rattle.rules.specs.Known.{Headed, Tabled};
ghost use Rattle.rules.specs.Listing.{number_checks, marked};
ghost use Rattle.rules.specs.Rules.{fault_at, cut_at, identified as identified_by, head_rule, extent_checks, content_checks, only_checks, earlier, is_number, fit_checks, symbol, symbols as symbols_in, reached, entry_checks, relocating as relocating_header, table_checks, symbol_checks};

use elf::{Header, Symbol, aligned, index, kind, read_entry, read_header, read_symbol};
use fault::{Fault, Kind, Layer};
use field::{Number, read};

// Where the symbols stand in the file, and how many there are.
#[derive(Clone, Copy, PartialEq, Eq, Debug)]
pub struct Symbols {
    pub from: u64,
    pub count: u32,
}

// A section with relocations: of which section they are and how long that one is, where they stand, and how many there
// are.
#[derive(Clone, Copy, PartialEq, Eq, Debug)]
pub struct Part {
    pub target: u32,
    pub size: u64,
    pub from: u64,
    pub count: u32,
}

// The roots of an object, in order: the first `count` of `list`. No `ArrayVec`, which cannot be copied, as notes can.
#[derive(Clone, Copy, PartialEq, Eq, Debug)]
pub struct RootList {
    pub list: [u16; 1024],
    pub count: u16,
    ghost few: { count ≤ 1024 },
}

impl RootList {
    ghost use Rattle.std.specs.Prelude.{[], ◌∷◌, ◌++◌, slice_get};
    ghost use Rattle.rules.specs.Notes.{told_roots};

    // No root.
    pub fn none() -> RootList
        ensures { told_roots result ≡ [] }
    {
        RootList {
            list: [0; 1024],
            count: 0,
        }
    }

    // They themselves.
    fn told(&self) -> &[u16]
        ensures { result.now ≡ told_roots self.now }
    {
        &self.list[..usize::from(self.count)]
    }

    // How many there are.
    pub fn len(&self) -> u16
        ensures { result ≡ length (told_roots self.now) }
    {
        self.told().len() as u16
    }

    // Root `j`.
    pub fn get(&self, j: u16) -> Option<u16>
        ensures { result ≡ slice_get (told_roots self.now) j }
    {
        self.told().get(usize::from(j)).copied()
    }

    // One root more, behind the others.
    pub fn push(&mut self, s: u16)
        requires { length (told_roots self.old) < 1024 }
        ensures { told_roots self.new ≡ told_roots self.old ++ s ∷ [] }
    {
        self.list[usize::from(self.count)] = s;
        self.count += 1;
    }
}

// What is noted of an object. `parts` has for each section the number of the section with its relocations; `listed` says,
// where there is an address-significance table, in which sections it lists a symbol; the roots ascend.
#[derive(Clone, Copy, PartialEq, Eq, Debug)]
pub struct Notes {
    pub symbols: Symbols,
    pub parts: [Option<u16>; 1024],
    pub listed: Option<[bool; 1024]>,
    pub roots: RootList,
}

// The headers of all sections of an object, which stand in the file from `first` on.
#[derive(Clone, Copy, PartialEq, Eq, Debug)]
pub struct Headers<'a> {
    pub bytes: &'a [u8],
    pub first: u64,
    pub count: u16,
    ghost headed: { Headed bytes.now first count },
}

// A section header, and the place of the file where it stands.
#[derive(Clone, Copy, PartialEq, Eq, Debug)]
pub struct Placed {
    pub place: u64,
    pub header: Header,
    ghost within: { place + 64 < 18446744073709551616 },
}

// The symbols of an object, which stand in the file.
#[derive(Clone, Copy, PartialEq, Eq, Debug)]
pub struct SymbolTable<'a> {
    pub bytes: &'a [u8],
    pub symbols: Symbols,
    ghost tabled: { Tabled bytes.now symbols },
}

// The section headers and the symbols of one object.
#[derive(Clone, Copy, PartialEq, Eq, Debug)]
pub struct Tables<'a> {
    pub headers: Headers<'a>,
    pub symbols: SymbolTable<'a>,
    ghost same: { symbols.bytes.now ≡ headers.bytes.now },
}

// A refusal of the format; `Fault::new` at each call would be no plainer, since each would name the layer as well.
pub fn refusal(kind: Kind, place: u64) -> Fault
    ensures { result ≡ fault_at kind place }
{
    Fault::new(kind, place, Layer::Format)
}

// The refusal of a part that runs past the end, told at the field that says so.
fn cut(place: u64) -> Fault
    ensures { result ≡ cut_at place }
{
    Fault::new(Kind::Short, place, Layer::Field)
}

// Whether `size` bytes from `offset` on end within `len`.
fn ends_within(offset: u64, size: u64, len: u64) -> bool
    ensures { result ≡ nat_le (offset + size) len }
{
    size <= len && offset <= len - size
}

// Whether the file begins as a 64-bit little-endian ELF file does.
fn identified(b: &[u8]) -> bool
    requires { 64 ≤ length b.now }
    ensures { result ≡ identified_by b.now }
{
    b.starts_with(&[0x7f, b'E', b'L', b'F', 2, 1, 1])
}

impl<'a> Headers<'a> {
    // The headers of an object whose own header meets the rules.
    pub fn read(bytes: &'a [u8]) -> Result<Headers<'a>, Fault>
        ensures { MatchResult result (λ h. (first_fault (head_rule bytes.now) ≡ None) × (h.bytes.now ≡ bytes.now)) (λ f. first_fault (head_rule bytes.now) ≡ Some f) }
    {
        let _last: u16 = read(bytes, 62)?;
        if !identified(bytes) {
            return Err(refusal(Kind::Foreign, 0));
        }
        let kind: u16 = read(bytes, 16)?;
        if kind != 1 {
            return Err(refusal(Kind::Foreign, 16));
        }
        let size: u16 = read(bytes, 58)?;
        if size != 64 {
            return Err(refusal(Kind::Foreign, 58));
        }
        let count: u16 = read(bytes, 60)?;
        if !(1..=1024).contains(&count) {
            return Err(refusal(Kind::Oversize, 60));
        }
        let first: u64 = read(bytes, 40)?;
        if !ends_within(first, 64 * u64::from(count), bytes.len() as u64) {
            return Err(cut(40));
        }
        Ok(Headers {
            bytes,
            first,
            count,
        })
    }

    // The place of the header of section `i`.
    pub fn place(self, i: u16) -> u64
        requires { i < self.count }
        ensures right { result ≡ place self.entry.bytes.now i }
        ensures inside { result + 64 ≤ length self.entry.bytes.now }
    {
        self.first + 64 * u64::from(i)
    }

    // The header of section `i`, inlined as the reader of headers is.
    #[inline(always)]
    pub fn section(self, i: u16) -> Header
        requires { i < self.count }
        ensures { result ≡ section self.entry.bytes.now i }
    {
        read_header(self.bytes, self.place(i)).unwrap()
    }

    // The header of section `i`, with its place.
    pub fn placed(self, i: u16) -> Placed
        requires { i < self.count }
        ensures place { result.place ≡ place self.entry.bytes.now i }
        ensures header { result.header ≡ section self.entry.bytes.now i }
    {
        Placed {
            place: self.place(i),
            header: self.section(i),
        }
    }

    // The symbol `s`, which stands at `q`. No struct holds a place and its bound: each is made for one call and used up there.
    pub fn symbol_rule(self, q: u64, s: Symbol) -> Result<(), Fault>
        requires { q + 24 ≤ length self.bytes.now }
        ensures { result ≡ answer (first_fault (symbol_checks self.entry.bytes.now q s)) tt }
    {
        if s.is_outside() {
            return Ok(());
        }
        if s.section >= index::RESERVED {
            return Err(refusal(Kind::Misshapen, q + 6));
        }
        if s.section >= self.count {
            return Err(refusal(Kind::Dangling, q + 6));
        }
        let h = self.section(s.section);
        if h.is_present() && s.value > h.size {
            return Err(refusal(Kind::Misshapen, q + 8));
        }
        Ok(())
    }

    // The symbol at `q`.
    pub fn symbol_at(self, q: u64) -> Result<(), Fault>
        requires { q + 24 ≤ length self.bytes.now }
        ensures { result ≡ answer (first_fault (symbol_checks self.entry.bytes.now q (symbol_at self.entry.bytes.now q))) tt }
    {
        let s = read_symbol(self.bytes, q)?;
        self.symbol_rule(q, s)
    }

    // Whether a relocation may name the symbol.
    fn reaches(self, s: Symbol) -> bool
        ensures { result ≡ reached self.entry.bytes.now s }
    {
        s.is_outside() || s.section < self.count && self.section(s.section).is_present()
    }
}

impl Placed {
    // That what the file holds of the section ends within it.
    pub fn extent(self, len: u64) -> Result<(), Fault>
        ensures { result ≡ answer (first_fault (extent_checks len self.place self.header)) tt }
    {
        let h = self.header;
        if matches!(h.kind, kind::NULL | kind::NO_BITS) || ends_within(h.offset, h.size, len) {
            return Ok(());
        }
        Err(cut(self.place + 24))
    }

    // That the section, where it is present, is in range.
    pub fn content(self) -> Result<(), Fault>
        ensures { result ≡ answer (first_fault (content_checks self.place self.header)) tt }
    {
        let h = self.header;
        if !h.is_present() {
            return Ok(());
        }
        if h.flags >= 4294967296 {
            return Err(refusal(Kind::Misshapen, self.place + 8));
        }
        if h.size > 65535 {
            return Err(refusal(Kind::Oversize, self.place + 32));
        }
        if !aligned(h.alignment) {
            return Err(refusal(Kind::Misshapen, self.place + 48));
        }
        Ok(())
    }

    // That the section holds entries of 24 bytes, at most `limit`; how many.
    pub fn entry_count(self, limit: u32) -> Result<u32, Fault>
        ensures { result ≡ answer (first_fault (table_checks limit self.place self.header)) (self.header.size / 24) }
    {
        let h = self.header;
        if h.stride != 24 {
            return Err(refusal(Kind::Misshapen, self.place + 56));
        }
        if h.size % 24 != 0 {
            return Err(refusal(Kind::Misshapen, self.place + 32));
        }
        if h.size / 24 > u64::from(limit) {
            return Err(refusal(Kind::Oversize, self.place + 32));
        }
        Ok((h.size / 24) as u32)
    }

    // Section `i` in the search for the only one of a type, of which `found` was found before.
    pub fn only_step(self, kind: u32, i: u16, found: Option<u16>) -> Result<Option<u16>, Fault>
        ensures { result ≡ answer (first_fault (only_checks kind self.place self.header found)) (earlier found (self.header.kind == kind) i) }
    {
        if self.header.kind != kind {
            return Ok(found);
        }
        if found.is_some() {
            return Err(refusal(Kind::Misshapen, self.place + 4));
        }
        Ok(Some(i))
    }

    // That the section, which has relocations of a present section, has them in a form that is read, as the first of that
    // section, and of the symbols of the object; how many.
    pub fn relocation_count(self, taken: bool, linked: bool) -> Result<u32, Fault>
        ensures { result ≡ answer (first_fault (fit_checks self.place self.header taken linked)) (self.header.size / 24) }
    {
        if self.header.kind != kind::RELOCATIONS {
            return Err(refusal(Kind::Misshapen, self.place + 4));
        }
        if taken {
            return Err(refusal(Kind::Misshapen, self.place + 44));
        }
        if !linked {
            return Err(refusal(Kind::Dangling, self.place + 40));
        }
        self.entry_count(65535)
    }
}

impl<'a> SymbolTable<'a> {
    // Symbol `j`.
    fn symbol(self, j: u32) -> Symbol
        requires { j < self.symbols.count }
        ensures { result ≡ symbol self.entry.bytes.now j }
    {
        read_symbol(self.bytes, self.symbols.from + 24 * u64::from(j)).unwrap()
    }

    // The number `n`, which began at `from`, as a symbol.
    pub fn named(self, from: u64, n: Number) -> Result<Symbol, Fault>
        ensures { result ≡ answer (first_fault (number_checks (symbols_in self.entry.bytes.now).count from (Ok n))) (symbol self.entry.bytes.now n.value) }
    {
        if n.value >= self.symbols.count {
            return Err(refusal(Kind::Dangling, from));
        }
        Ok(self.symbol(n.value))
    }
}

impl<'a> Tables<'a> {
    // The relocation entry at `q`, of a section of some size.
    pub fn entry_at(self, size: u64, q: u64) -> Result<(), Fault>
        requires { q + 24 ≤ length self.headers.bytes.now }
        ensures { result ≡ answer (first_fault (entry_checks self.entry.headers.bytes.now size q (entry_at self.entry.headers.bytes.now q))) tt }
    {
        let e = read_entry(self.headers.bytes, q)?;
        if e.offset >= size {
            return Err(refusal(Kind::Misshapen, q));
        }
        let table = self.symbols;
        if e.symbol >= table.symbols.count || !self.headers.reaches(table.symbol(e.symbol)) {
            return Err(refusal(Kind::Dangling, q + 8));
        }
        if i32::try_from(e.addend).is_err() {
            return Err(refusal(Kind::Misshapen, q + 16));
        }
        Ok(())
    }
}

// Whether the section has relocations.
pub fn relocating(h: Header) -> bool
    ensures { result ≡ relocating_header h }
{
    matches!(
        h.kind,
        kind::RELOCATIONS | kind::RELOCATIONS_WITHOUT_ADDENDS
    )
}

// Whether the section found has this number.
pub fn is_number(found: Option<u16>, link: u32) -> bool
    ensures { result ≡ is_number found link }
{
    found.is_some_and(|i| u32::from(i) == link)
}

// Whether relocations are noted for section `t`.
pub fn noted(parts: &[Option<u16>; 1024], t: u32) -> bool
    ensures { result ≡ is_some (slice_index_or parts.now t None) }
{
    matches!(parts.get(t as usize), Some(Some(_)))
}

// Marks the section of a symbol.
pub fn mark(marks: &mut [bool; 1024], s: Symbol)
    ensures { marks.new ≡ marked s marks.old }
{
    if !s.is_outside() && s.section < 1024 {
        marks[s.section as usize] = true;
    }
}
