// Graphs as objects: what can stand in one, and the sections that tell it.
use crate::chance::Chance;
use crate::object_fields::{ENTRIES, NO_BYTES, SIGNIFICANT, SYMBOLS};
use crate::object_reader::{is_pinned, is_root};
use crate::object_writer::{Section, object_of, push_number};
use crate::shapes::{Aim, Link, Part, World};
use std::alloc::{AllocError, Global};

// The symbols before those of the sections are outside.
const OUTSIDE: usize = 3;

fn unsigned(x: i64) -> u64 {
    u64::try_from(x).unwrap_or(0)
}

// A number in 64 bits, two's complement.
fn complement(x: i64) -> u64 {
    if x < 0 {
        u64::MAX.saturating_sub(unsigned(x.saturating_add(1).saturating_neg()))
    } else {
        unsigned(x)
    }
}

// The type of a section, which is another one where it is to be a root or to be pinned.
fn kind_by_chance(chance: &mut Chance, becomes_root: bool) -> u64 {
    if becomes_root {
        unsigned(chance.pick(&[14, 15, 16]))
    } else if chance.once_in(9) {
        unsigned(chance.pick(&[7, 8, 8, 14, 1879048193]))
    } else {
        1
    }
}

// Makes a part such as an object can have it in a section of that type.
fn fit_part(chance: &mut Chance, part: &mut Part, kind: u64, lists: bool) {
    if chance.once_in(9) {
        part.flags = chance.pick(&[3, 18, 130, 1026, 2097158, 2147483654]);
    }
    if part.flags == 4294967295 {
        part.flags = 4294966783;
    }
    if kind == NO_BYTES {
        for x in part.bytes.as_mut_slice().iter_mut() {
            *x = 0;
        }
    }
    part.pinned = part.pinned || !lists || is_pinned(kind, unsigned(part.flags));
}

// Relocations of a part to some present sections more.
fn push_links(chance: &mut Chance, part: &mut Part, presence: &[bool]) -> Result<(), AllocError> {
    for (s, is_there) in presence.iter().enumerate() {
        if *is_there && !part.bytes.is_empty() && chance.once_in(2) {
            part.links.push(Link {
                offset: 0,
                kind: 1,
                aim: Aim::Section(s),
                displacement: 0,
            })?;
        }
    }
    Ok(())
}

// The whole graph such as an object can have it, with roots that reach some more sections; answers the types of the sections.
fn fit(
    heap: Global,
    chance: &mut Chance,
    world: &mut World,
    lists: bool,
) -> Result<Vec<u64>, AllocError> {
    let presence = world.presence(heap)?;
    let mut kinds = Vec::new(heap);
    let mut roots = Vec::new(heap);
    for (s, place) in world.parts.as_mut_slice().iter_mut().enumerate() {
        let mut kind = 1;
        if let Some(part) = place {
            kind = kind_by_chance(chance, world.roots.as_slice().contains(&s));
            fit_part(chance, part, kind, lists);
            if is_root(kind, unsigned(part.flags)) {
                push_links(chance, part, presence.as_slice())?;
                roots.push(s)?;
            }
        }
        kinds.push(kind)?;
    }
    world.roots = roots;
    Ok(kinds)
}

fn section(kind: u64, bytes: Vec<u8>) -> Section {
    Section {
        kind,
        flags: 0,
        size: bytes.len(),
        link: 0,
        info: 0,
        alignment: 1,
        stride: 0,
        bytes,
    }
}

// A present section; flag 512 and alignment 0 go for nothing.
fn section_of(
    heap: Global,
    chance: &mut Chance,
    part: &Part,
    kind: u64,
) -> Result<Section, AllocError> {
    let mut bytes = Vec::new(heap);
    if kind != NO_BYTES {
        for x in &part.bytes {
            bytes.push(u8::try_from(*x).unwrap_or(0))?;
        }
    }
    let group = if chance.once_in(4) { 512 } else { 0 };
    let alignment = unsigned(part.alignment);
    Ok(Section {
        flags: unsigned(part.flags) | group,
        size: part.bytes.len(),
        alignment: if alignment == 1 && chance.once_in(2) {
            0
        } else {
            alignment
        },
        ..section(kind, bytes)
    })
}

// An absent section: one that takes no memory, or none at all.
fn absent(heap: Global, chance: &mut Chance) -> Result<Section, AllocError> {
    let bytes = vec![in heap; 255; chance.below(3)]?;
    Ok(section(unsigned(chance.pick(&[1, 1, 3, 7])), bytes))
}

fn size_of_part(world: &World, s: usize) -> usize {
    world.part(s).map_or(0, |part| part.bytes.len())
}

// The symbol at the start of a section, or at its end.
fn symbol_of(s: usize, at_end: bool) -> usize {
    s.saturating_mul(2)
        .saturating_add(OUTSIDE)
        .saturating_add(usize::from(at_end))
}

fn push_symbol(bytes: &mut Vec<u8>, section: u64, value: usize) -> Result<(), AllocError> {
    push_number(bytes, 0, 6)?;
    push_number(bytes, section, 2)?;
    push_number(bytes, value as u64, 8)?;
    push_number(bytes, 0, 8)
}

fn symbols(heap: Global, world: &World) -> Result<Section, AllocError> {
    let mut bytes = Vec::new(heap);
    push_symbol(&mut bytes, 0, 0)?;
    push_symbol(&mut bytes, 0xfff1, 5)?;
    push_symbol(&mut bytes, 0xfff2, 8)?;
    for s in 0..world.parts.len() {
        push_symbol(&mut bytes, s as u64, 0)?;
        push_symbol(&mut bytes, s as u64, size_of_part(world, s))?;
    }
    Ok(Section {
        stride: 24,
        ..section(SYMBOLS, bytes)
    })
}

// A relocation, to a section by one of its two symbols.
fn push_entry(
    bytes: &mut Vec<u8>,
    chance: &mut Chance,
    world: &World,
    link: &Link,
) -> Result<(), AllocError> {
    let (symbol, value) = match link.aim {
        Aim::Outside(e) => (e, 0),
        Aim::Section(t) => {
            let at_end = link.displacement >= 0 && chance.once_in(2);
            let value = if at_end { size_of_part(world, t) } else { 0 };
            (symbol_of(t, at_end), i64::try_from(value).unwrap_or(0))
        }
    };
    push_number(bytes, unsigned(link.offset), 8)?;
    push_number(bytes, unsigned(link.kind), 4)?;
    push_number(bytes, symbol as u64, 4)?;
    push_number(
        bytes,
        complement(link.displacement.saturating_sub(value)),
        8,
    )
}

fn entries(
    heap: Global,
    chance: &mut Chance,
    world: &World,
    s: usize,
    part: &Part,
) -> Result<Section, AllocError> {
    let mut bytes = Vec::new(heap);
    for link in &part.links {
        push_entry(&mut bytes, chance, world, link)?;
    }
    Ok(Section {
        link: world.parts.len(),
        info: s,
        stride: 24,
        ..section(ENTRIES, bytes)
    })
}

// A symbol as a ULEB128 number, now and then longer than it needs to be.
fn push_listed(bytes: &mut Vec<u8>, chance: &mut Chance, symbol: usize) -> Result<(), AllocError> {
    if chance.once_in(6) {
        push_number(bytes, (symbol as u64).saturating_add(128), 1)?;
        push_number(bytes, 0, 1)
    } else {
        push_number(bytes, symbol as u64, 1)
    }
}

// The list of significant symbols: those of the sections that nothing else pins, and some others.
fn significance(
    heap: Global,
    chance: &mut Chance,
    world: &World,
    kinds: &[u64],
) -> Result<Section, AllocError> {
    let mut bytes = Vec::new(heap);
    for (s, kind) in kinds.iter().enumerate() {
        if let Some(part) = world.part(s) {
            let is_pinned = is_pinned(*kind, unsigned(part.flags));
            if part.pinned && (!is_pinned || chance.once_in(2)) {
                let symbol = symbol_of(s, chance.once_in(2));
                push_listed(&mut bytes, chance, symbol)?;
            }
        }
    }
    if chance.once_in(3) {
        let symbol = chance.below(OUTSIDE);
        push_listed(&mut bytes, chance, symbol)?;
    }
    Ok(section(SIGNIFICANT, bytes))
}

// A graph with no section 0, made such as an object can have it, and written as one: its sections, the symbols, the relocations, and mostly
// the significant symbols.
pub fn put_in_object(
    heap: Global,
    chance: &mut Chance,
    world: &mut World,
) -> Result<Vec<u8>, AllocError> {
    let lists = !chance.once_in(6);
    let kinds = fit(heap, chance, world, lists)?;
    let mut sections: Vec<Section> = Vec::new(heap);
    for (s, kind) in kinds.as_slice().iter().enumerate() {
        sections.push(match world.part(s) {
            Some(part) => section_of(heap, chance, part, *kind)?,
            None if s == 0 => section(0, Vec::new(heap)),
            None => absent(heap, chance)?,
        })?;
    }
    sections.push(symbols(heap, world)?)?;
    for s in 0..world.parts.len() {
        if let Some(part) = world.part(s)
            && !part.links.is_empty()
        {
            sections.push(entries(heap, chance, world, s, part)?)?;
        }
    }
    if lists {
        sections.push(significance(heap, chance, world, kinds.as_slice())?)?;
    }
    for _ in world.parts.len()..sections.len() {
        world.parts.push(None)?;
    }
    object_of(heap, sections.as_slice())
}
