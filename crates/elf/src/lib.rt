// The parts of an ELF64 object: section headers, symbols and relocation entries, read at a place of the file.

#![tactic(auto)]

ghost use Rattle.std.specs.Prelude.{◌≡◌};
ghost use Rattle.field.specs.Fields.{within};
ghost use Rattle.elf.specs.Layout.{header_at, symbol_at, entry_at, place, section as section_in, has, apart, present, outside, aligned as aligned_by, root, plain};

use fault::Fault;
use field::read;
use model::is_alignment;

pub mod flag;
pub mod index;
pub mod kind;

// What is read of a section header; `stride` is the size of an entry, `kind` the type.
#[derive(Clone, Copy, PartialEq, Eq, Debug)]
pub struct Header {
    pub kind: u32,
    pub flags: u64,
    pub offset: u64,
    pub size: u64,
    pub link: u32,
    pub info: u32,
    pub alignment: u64,
    pub stride: u64,
}

// What is read of a symbol: the index of its section, and its value.
#[derive(Clone, Copy, PartialEq, Eq, Debug)]
pub struct Symbol {
    pub section: u16,
    pub value: u64,
}

// A relocation entry.
#[derive(Clone, Copy, PartialEq, Eq, Debug)]
pub struct Entry {
    pub offset: u64,
    pub kind: u32,
    pub symbol: u32,
    pub addend: i64,
}

impl Header {
    // Whether a flag is set.
    fn has(self, flag: u64) -> bool
        ensures { result ≡ has self.flags flag }
    {
        self.flags & flag != 0
    }

    // Whether sections of this type are no part of the graph.
    fn is_apart(self) -> bool
        ensures { result ≡ apart self.kind }
    {
        matches!(
            self.kind,
            kind::NULL
                | kind::SYMBOL_TABLE
                | kind::STRING_TABLE
                | kind::RELOCATIONS
                | kind::RELOCATIONS_WITHOUT_ADDENDS
                | kind::GROUP
                | kind::EXTENDED_INDEXES
                | kind::ADDRESS_SIGNIFICANCE
        )
    }

    // Whether the section is present in the graph.
    pub fn is_present(self) -> bool
        ensures { result ≡ present self }
    {
        self.has(flag::ALLOCATE) && !self.is_apart()
    }

    // Whether the section is kept for what it is.
    pub fn is_root(self) -> bool
        ensures { result ≡ root self }
    {
        self.is_present()
            && (matches!(
                self.kind,
                kind::INITIALIZERS | kind::FINALIZERS | kind::EARLY_INITIALIZERS
            ) || self.has(flag::RETAIN))
    }

    // Whether the section may be folded if no symbol in it is listed.
    pub fn is_plain(self) -> bool
        ensures { result ≡ plain self }
    {
        self.kind == kind::PROGRAM
            && !self.is_root()
            && !(self.has(flag::WRITE)
                || self.has(flag::MERGE)
                || self.has(flag::LINK_ORDER)
                || self.has(flag::THREAD_LOCAL))
    }
}

impl Symbol {
    // Whether the symbol is defined in no section.
    pub fn is_outside(self) -> bool
        ensures { result ≡ outside self.section }
    {
        matches!(
            self.section,
            index::UNDEFINED | index::ABSOLUTE | index::COMMON
        )
    }
}

// The section header at `p`. It and `read_section` are inlined, so that the compiler may leave out the fields that a caller has no use
// for, and take the others out of a loop.
#[inline(always)]
pub fn read_header(b: &[u8], p: u64) -> Result<Header, Fault>
    ensures { result ≡ within b.now p 64 (header_at b.now p) }
{
    // the last field first, so that none of the places before it is out of range
    let stride = read(b, p.saturating_add(56))?;
    Ok(Header {
        kind: read(b, p + 4)?,
        flags: read(b, p + 8)?,
        offset: read(b, p + 24)?,
        size: read(b, p + 32)?,
        link: read(b, p + 40)?,
        info: read(b, p + 44)?,
        alignment: read(b, p + 48)?,
        stride,
    })
}

// The symbol at `p`.
pub fn read_symbol(b: &[u8], p: u64) -> Result<Symbol, Fault>
    ensures { result ≡ within b.now p 16 (symbol_at b.now p) }
{
    let value = read(b, p.saturating_add(8))?;
    Ok(Symbol {
        section: read(b, p + 6)?,
        value,
    })
}

// The relocation entry at `p`.
pub fn read_entry(b: &[u8], p: u64) -> Result<Entry, Fault>
    ensures { result ≡ within b.now p 24 (entry_at b.now p) }
{
    let addend = read(b, p.saturating_add(16))?;
    let info: u64 = read(b, p + 8)?;
    Ok(Entry {
        offset: read(b, p)?,
        kind: (info % 4294967296) as u32,
        symbol: (info / 4294967296) as u32,
        addend,
    })
}

// The header of section `i`.
#[inline(always)]
pub fn read_section(b: &[u8], i: u16) -> Result<Header, Fault>
    ensures { result ≡ within b.now (place b.now i) 64 (section_in b.now i) }
{
    let first: u64 = read(b, 40)?;
    read_header(b, first.saturating_add(64 * u64::from(i)))
}

// Whether an alignment is allowed.
pub fn aligned(a: u64) -> bool
    ensures { result ≡ aligned_by a }
{
    a == 0 || is_alignment(a)
}
