// The graph of an object as docs/OBJECT.md has it, written for the trials.
use crate::object_fields::{Bytes, ENTRIES, NO_BYTES, SIGNIFICANT, SYMBOLS, addend};
use crate::shapes::{Aim, Link, Part, Refusal, World};
use std::alloc::{AllocError, Global};

fn signed(x: u64) -> i64 {
    i64::try_from(x).unwrap_or(-1)
}

// Whether a section is a root by its type and flags.
pub fn is_root(kind: u64, flags: u64) -> bool {
    kind == 14 || kind == 15 || kind == 16 || flags & 0x200000 != 0
}

// Whether a section is pinned by its type and flags.
pub fn is_pinned(kind: u64, flags: u64) -> bool {
    kind != 1 || is_root(kind, flags) || flags & (0x1 | 0x10 | 0x80 | 0x400) != 0
}

// The sections of the symbols that the address-significance table lists.
fn listed(heap: Global, object: Bytes<'_>) -> Result<Vec<usize>, AllocError> {
    let mut sections = Vec::new(heap);
    if let Some(table) = object.first(SIGNIFICANT) {
        let end = object.end(table);
        let mut next = object.start(table);
        for place in next..end {
            if place == next
                && let Some((symbol, length)) = object.significant(place, end)
            {
                if let Some(s) = object.home(symbol) {
                    sections.push(s)?;
                }
                next = next.saturating_add(length);
            }
        }
    }
    Ok(sections)
}

fn link(object: Bytes<'_>, at: usize) -> Link {
    let symbol = usize::try_from(object.number(at.saturating_add(12), 4)).unwrap_or(0);
    let added = addend(object.number(at.saturating_add(16), 8)).unwrap_or(0);
    let table = object.first(SYMBOLS).unwrap_or(0);
    let value = object.number(object.entry(table, symbol).saturating_add(8), 8);
    let (aim, displacement) = match object.home(symbol) {
        None => (Aim::Outside(symbol), added),
        Some(s) => (Aim::Section(s), signed(value).saturating_add(added)),
    };
    Link {
        offset: signed(object.number(at, 8)),
        kind: signed(object.number(at.saturating_add(8), 4)),
        aim,
        displacement,
    }
}

fn links(heap: Global, object: Bytes<'_>, s: usize) -> Result<Vec<Link>, AllocError> {
    let mut links = Vec::new(heap);
    for r in 0..object.count() {
        if object.kind(r) == ENTRIES && object.told(r, 44, 4) == s as u64 {
            for k in 0..object.entries(r) {
                links.push(link(object, object.entry(r, k)))?;
            }
        }
    }
    Ok(links)
}

fn byte(object: Bytes<'_>, s: usize, place: usize) -> i64 {
    if object.kind(s) == NO_BYTES {
        0
    } else {
        signed(object.number(place, 1))
    }
}

fn part(heap: Global, object: Bytes<'_>, listed: &[usize], s: usize) -> Result<Part, AllocError> {
    let flags = object.told(s, 8, 8);
    let start = object.start(s);
    let size = usize::try_from(object.size(s)).unwrap_or(0);
    Ok(Part {
        flags: signed(flags & !0x200),
        alignment: signed(object.told(s, 48, 8).max(1)),
        bytes: (0..size)
            .map(|i| byte(object, s, start.saturating_add(i)))
            .collect(heap)?,
        links: links(heap, object, s)?,
        pinned: is_pinned(object.kind(s), flags)
            || listed.contains(&s)
            || object.first(SIGNIFICANT).is_none(),
    })
}

// The graph of an object, or the refusal of a file that is none.
pub fn read_object(heap: Global, file: &[u8]) -> Result<Result<World, Refusal>, AllocError> {
    let object = Bytes { file };
    if let Err(refusal) = object.judge() {
        return Ok(Err(refusal));
    }
    let listed = listed(heap, object)?;
    let mut world = World::empty(heap);
    for s in 0..object.count() {
        if object.is_present(s) {
            world
                .parts
                .push(Some(part(heap, object, listed.as_slice(), s)?))?;
            if is_root(object.kind(s), object.told(s, 8, 8)) {
                world.roots.push(s)?;
            }
        } else {
            world.parts.push(None)?;
        }
    }
    Ok(Ok(world))
}
