// The reader of objects: what it holds, what it does, and its answers as a section graph, from the bytes and the notes on
// them, with no search.
ghost use Rattle.std.specs.Prelude.{◌≡◌, ◌+◌, ◌<◌, ◌≤◌, true, ◌&&◌, [], if◌then◌else◌, map, length, take, drop, replicate, Some, None, MatchOption, IfOk, OnOk};
ghost use Rattle.elf.specs.Layout.{sections, section, plain, entry_at};
ghost use Rattle.model.specs.declared.Setting.TheVariants.{Foldable, Pinned};
ghost use Rattle.model.specs.Graph.{empty, section_of, record_of, relocation_of};
ghost use Rattle.model.specs.Laws.{Valid};
ghost use Rattle.checklist.specs.Checks.{answer};
ghost use Rattle.checklist.specs.Laws.{Verdict};
ghost use Rattle.rules.specs.Rules.{part, symbol};
ghost use Rattle.rules.specs.Notes.{parts, Noted};
ghost use Rattle.rules.specs.Ending.{Ends};
ghost use Rattle.rules.specs.Verdict.{checks, verdict};
ghost use Rattle.object.specs.Meaning.{low, relocation_of_entry, relocations_in, meaning};
ghost use Rattle.object.specs.Held.{held, unlisted, Told, Ready};
ghost use Rattle.object.specs.Facts.{Seen, PartSeen};
ghost use Rattle.graph.specs.Bytes.{bytes_of, digest};

use elf::{Entry, Header, Symbol, flag, kind, read_entry, read_section, read_symbol};
use fault::Fault;
use field::read;
use graph::{SectionGraph, mix};
use model::{Record, Relocation, Setting, Target};
use reading::examine;
use rules::{Notes, RootList, Symbols};
use std::alloc::Global;

static ZEROS: [u8; 65535] = [0; 65535];

// The bytes of a section that has room in memory and nothing in the file.
fn zeros(size: usize) -> &'static [u8]
    requires { size ≤ 65535 }
    ensures { result.now ≡ replicate size 0 }
{
    &ZEROS[..size]
}

// The bytes of a section that the file has.
fn slice_of(file: &[u8], from: usize, size: usize) -> &[u8]
    requires { from + size ≤ length file.now }
    ensures { result.now ≡ map low (take size (drop from file.now)) }
{
    &file[from..from + size]
}

// A digest of some bytes. By a loop, as that of `graph` is.
#[tactic(auto, using(std::proofs::lemmas::List::drop_more, std::proofs::lemmas::List::drop_all))]
fn digest_of(bytes: &[u8]) -> u64
    ensures { result ≡ digest bytes.now }
{
    let mut digest = 14695981039346656037;
    for x in bytes {
        digest = mix(digest, u64::from(*x));
    }
    digest
}

// No section has relocations.
#[tactic(auto, using(crate::proofs::Holding::none_parted))]
fn no_parts() -> [Option<u16>; 1024]
    ensures { result ≡ parts [] }
{
    [None; 1024]
}

// The notes on no file.
#[tactic(auto, unfolding(field::specs::Fields::half))]
fn no_notes() -> Notes
    ensures { Noted [] result }
{
    Notes {
        symbols: Symbols { from: 0, count: 0 },
        parts: no_parts(),
        listed: None,
        roots: RootList::none(),
    }
}

// What is noted of a file that meets every rule, or the refusal. Of the vector, so that `read` learns it of the file that it keeps.
fn notes_of(file: &Vec<u8>) -> Result<Notes, Fault>
    ensures ends { Ends file.now.items (checks file.now.items) result }
    ensures met { IfOk result (λ x. held file.now.items ≡ true) }
    ensures lawful { OnOk result (Valid (meaning file.now.items)) }
    ensures first { Verdict (checks file.now.items) }
{
    examine(file.as_slice())
}

// A reader of ELF64 objects. It holds the file that it read last, and at first none.
#[derive(Drop)]
pub struct Object {
    file: Vec<u8>,
    notes: Notes,
    // no file, or one that meets every rule
    ghost met: { held file.items ≡ true },
    // the notes are those of the file
    ghost noted: { Noted file.items notes },
}

// A present section of the object that a reader holds: its number and its header.
#[derive(Clone, Copy)]
struct Shown<'a> {
    object: &'a Object,
    number: u16,
    header: Header,
    ghost seen: { Seen object.now.file.items number header },
}

impl Object {
    ghost use Rattle.object.specs.Reader.{graph_of, file_of, after};

    // A reader without a file: the empty graph.
    pub fn new(heap: Global) -> Object
        ensures { graph_of result ≡ empty }
    {
        Object {
            file: Vec::new(heap),
            notes: no_notes(),
        }
    }

    // Reads a file, which is moved in as it is. It is accepted exactly where every check holds, and a refusal is that of
    // the first check that does not hold. The reader then holds the file and means its graph, which keeps the laws; a
    // file that is refused leaves it as it was.
    pub fn read(&mut self, file: Vec<u8>) -> Result<(), Fault>
        ensures verdict { result ≡ answer (verdict file.items) tt }
        ensures first { Verdict (checks file.items) }
        ensures holds { file_of self.new ≡ after (verdict file.items) file.items (file_of self.old) }
        ensures graph { OnOk result ((graph_of self.new ≡ meaning file.items) × Valid (meaning file.items)) }
    {
        let notes = notes_of(&file)?;
        self.file = file;
        self.notes = notes;
        Ok(())
    }

    // The header of section `i`. It is inlined, and so are `shown`, `part`, `bytes`, `byte`, `relocation` and `relocation_from`, so that the
    // compiler may take the headers of a section out of a loop that asks for many bytes or relocations. Some of these hints without the
    // others made callers slower (docs/LOOK-BACK.md).
    #[inline(always)]
    #[tactic(auto, using(crate::proofs::Showing::header_read))]
    fn section(&self, i: u16) -> Header
        requires { i < sections (file_of self.now) }
        ensures { result ≡ section (file_of self.now) i }
    {
        read_section(self.file.as_slice(), i).unwrap()
    }

    // The relocation of the entry at `q`.
    #[inline(always)]
    fn relocation_from(&self, q: u64) -> Relocation
        requires { Ready (file_of self.now) q }
        ensures { result ≡ relocation_of_entry (symbol (file_of self.now) (entry_at (file_of self.now) q).symbol) (entry_at (file_of self.now) q) }
    {
        let b = self.file.as_slice();
        let e = read_entry(b, q).unwrap();
        let y = read_symbol(b, self.notes.symbols.from + 24 * e.symbol as u64).unwrap();
        told(y, e)
    }

    // The bytes of section `s`; an absent one has none.
    #[inline(always)]
    #[tactic(auto, using(crate::proofs::Showing::bytes_absent))]
    fn bytes(&self, s: u16) -> &[u8]
        ensures { result.now ≡ bytes_of (graph_of self.now) s }
    {
        let Some(x) = self.shown(s) else {
            return &[];
        };
        x.bytes()
    }

    // Section `s`, where it is present.
    #[inline(always)]
    #[tactic(auto, using(crate::proofs::Showing::count_told, crate::specs::Lawful::section_past, crate::proofs::Showing::shown_absent, crate::proofs::Showing::shown_seen))]
    fn shown(&self, s: u16) -> Option<Shown<'_>>
        ensures { MatchOption result (section_of (graph_of self.now) s ≡ None) (λ x. (x.object.now ≡ self.now) × (x.number ≡ s)) }
    {
        if s >= self.count() {
            return None;
        }
        let header = self.section(s);
        if !header.is_present() {
            return None;
        }
        Some(Shown {
            object: self,
            number: s,
            header,
        })
    }
}

impl<'a> Shown<'a> {
    ghost use Rattle.object.specs.Reader.{graph_of, file_of};

    // The header of the section with its relocations, where there is one.
    #[inline(always)]
    #[tactic(auto, using(crate::proofs::Showing::part_noted, crate::proofs::Showing::part_below, crate::proofs::Showing::part_seen))]
    fn part(&self) -> Option<Header>
        ensures { MatchOption result (part (file_of self.now.object.now) self.now.number (sections (file_of self.now.object.now)) ≡ None) (λ p. PartSeen (file_of self.now.object.now) self.now.number p) }
    {
        Some(
            self.object
                .section(self.object.notes.parts[self.number as usize]?),
        )
    }

    // How many relocations it has.
    #[tactic(auto, using(crate::proofs::Showing::count_seen))]
    fn relocation_count(&self) -> u16
        ensures { result ≡ length (relocations_in (file_of self.now.object.now) (part (file_of self.now.object.now) self.now.number (sections (file_of self.now.object.now)))) }
    {
        self.part().map_or(0, |part| (part.size / 24) as u16)
    }

    // Whether folding may join it with others.
    fn setting(&self) -> Setting
        ensures { result ≡ (if plain self.now.header && unlisted self.now.object.now.notes.listed self.now.number then Foldable else Pinned) }
    {
        if self.header.is_plain()
            && let Some(listed) = &self.object.notes.listed
            && !listed[self.number as usize]
        {
            Setting::Foldable
        } else {
            Setting::Pinned
        }
    }

    // What is told of it.
    #[tactic(auto, using(crate::proofs::Showing::record_is))]
    fn record(&self) -> Record
        ensures { Some result ≡ record_of (graph_of self.now.object.now) self.now.number }
    {
        let h = self.header;
        Record {
            flags: (h.flags - (h.flags & flag::GROUP)) as u32,
            alignment: h.alignment.max(1) as u32,
            size: h.size as u16,
            relocations: self.relocation_count(),
            setting: self.setting(),
        }
    }

    // Its bytes: of the file, or zeros.
    #[inline(always)]
    #[tactic(auto, using(crate::proofs::Showing::zeros_are, crate::proofs::Showing::slice_is))]
    fn bytes(&self) -> &'a [u8]
        ensures { result.now ≡ bytes_of (graph_of self.now.object.now) self.now.number }
    {
        let h = self.header;
        if h.kind == kind::NO_BITS {
            zeros(h.size as usize)
        } else {
            slice_of(&self.object.file, h.offset as usize, h.size as usize)
        }
    }

    // Its relocation `j`.
    #[inline(always)]
    #[tactic(auto, using(crate::proofs::Showing::relocation_past, crate::proofs::Showing::relocation_some, crate::proofs::Showing::ready))]
    fn relocation(&self, j: u16) -> Option<Relocation>
        ensures { result ≡ relocation_of (graph_of self.now.object.now) self.now.number j }
    {
        let part = self.part()?;
        if j as u64 >= part.size / 24 {
            return None;
        }
        Some(self.object.relocation_from(part.offset + 24 * j as u64))
    }
}

// An entry, whose symbol is `y`, as a relocation.
fn told(y: Symbol, e: Entry) -> Relocation
    requires { Told y e }
    ensures { result ≡ relocation_of_entry y e }
{
    let (target, displacement) = if y.is_outside() {
        (Target::Outside(e.symbol as u16), e.addend)
    } else {
        (Target::Section(y.section), y.value as i64 + e.addend)
    };
    Relocation {
        offset: e.offset as u16,
        kind: e.kind,
        target,
        displacement,
    }
}

// An object as a section graph.
impl SectionGraph for Object {
    ghost use Rattle.object.specs.Reader.{graph_of, file_of};
    ghost use Rattle.object.specs.Lawful.{lawful};

    ghost graph = { graph_of };

    ghost valid = { λ x. lawful (file_of x) x.met };

    #[tactic(auto, using(crate::proofs::Showing::count_read, crate::proofs::Showing::count_told))]
    fn count(&self) -> u16 {
        read(self.file.as_slice(), 60).unwrap_or(0)
    }

    fn record_of(&self, s: u16) -> Option<Record> {
        Some(self.shown(s)?.record())
    }

    #[inline(always)]
    #[tactic(auto, using(crate::proofs::Showing::byte_among))]
    fn byte(&self, s: u16, i: u16) -> Option<u8> {
        self.bytes(s).get(usize::from(i)).copied()
    }

    #[inline(always)]
    fn relocation(&self, s: u16, j: u16) -> Option<Relocation> {
        self.shown(s)?.relocation(j)
    }

    fn root_count(&self) -> u16 {
        self.notes.roots.len()
    }

    fn root(&self, j: u16) -> Option<u16> {
        self.notes.roots.get(j)
    }

    // In place of a question for each byte.
    fn byte_digest(&self, s: u16) -> u64 {
        digest_of(self.bytes(s))
    }

    fn same_bytes(&self, s: u16, t: u16) -> bool {
        self.bytes(s) == self.bytes(t)
    }
}
