// `merged`: which sections were made into one, as a fold map tells it, and which were swept.
use crate::names::Named;
use anyhow::ensure;
use fates::{Fate, FoldMap, SECTIONS};
use files::input::{is_object, load};
use files::or_row;
use options::Shown;
use std::alloc::{AllocError, Global};
use std::rt::Files;

// The sections that have a fate.
fn sections(heap: Global, map: &FoldMap, fate: Fate) -> Result<Vec<u16>, AllocError> {
    (0..SECTIONS)
        .filter(|s| map.fate(*s) == Some(fate))
        .collect(heap)
}

// How many sections were folded into others.
fn merged_count(map: &FoldMap) -> usize {
    (0..SECTIONS)
        .filter(|s| matches!(map.fate(*s), Some(Fate::Folded(_))))
        .count()
}

// A line for each section that others were folded into.
fn tell_groups(
    rt: &(impl Print + AllocGlobal),
    map: &FoldMap,
    object: &[u8],
    kept: &[u16],
) -> anyhow::Result<()> {
    for s in kept {
        let folded = sections(rt.alloc(), map, Fate::Folded(*s))?;
        if !folded.is_empty() {
            let into = Named {
                object,
                sections: &[*s],
            };
            let from = Named {
                object,
                sections: folded.as_slice(),
            };
            println!(rt; "merged         {into} <- {from}")?;
        }
    }
    Ok(())
}

// All that a map tells.
fn tell(rt: &(impl Print + AllocGlobal), map: &FoldMap, object: &[u8]) -> anyhow::Result<()> {
    let kept = sections(rt.alloc(), map, Fate::Own)?;
    let swept = sections(rt.alloc(), map, Fate::Swept)?;
    tell_groups(rt, map, object, kept.as_slice())?;
    if !swept.is_empty() {
        let gone = Named {
            object,
            sections: swept.as_slice(),
        };
        println!(rt; "swept          {gone}")?;
    }
    println!(rt;
        "sections       {} kept, {} merged, {} swept",
        kept.len(),
        merged_count(map),
        swept.len()
    )?;
    Ok(())
}

// The object whose names are told; without one, a file with no names.
fn load_names(
    rt: &(impl Files + Input + AllocGlobal),
    object: &Option<String>,
) -> anyhow::Result<Vec<u8>> {
    if object.is_none() {
        return Ok(Vec::new(rt.alloc()));
    }
    let bytes = load(rt, object)?;
    ensure!(
        is_object(bytes.as_slice()),
        "what follows -n is no ELF object"
    );
    Ok(bytes)
}

pub fn merged(rt: &(impl Files + Input + Print + AllocGlobal), shown: Shown) -> anyhow::Result<()> {
    let object = load_names(rt, &shown.object)?;
    let text = load(rt, &shown.map)?;
    let map = or_row(rt, FoldMap::read(text.as_slice()))?;
    tell(rt, &map, object.as_slice())
}
