// A pile as docs/PILE.md has it, written for the trials: nested loops over plain vectors, the graph changed in place.
use crate::shapes::{Aim, Link, Part, Refusal, World};
use buffers::plain::PlainCall;
use std::alloc::{AllocError, Global};

#[derive(Clone, Copy, PartialEq, Eq, Debug)]
pub enum Fate {
    Here,
    Into(usize),
    Gone,
}

#[derive(Drop)]
pub struct PlainPile {
    heap: Global,
    pub world: World,
    // which sections are present below
    pub below: Vec<bool>,
    pub fates: Vec<Fate>,
    bound: Vec<usize>,
    added: usize,
    closed: bool,
}

// What the last sweep and the last fold answered.
#[derive(Clone, Copy, PartialEq, Eq, Debug)]
pub struct Counts {
    pub present: usize,
    pub dropped: usize,
    pub merged: usize,
    pub rounds: usize,
}

// What a target is told as, where sections are in these classes.
#[derive(Clone, Copy, PartialEq, Eq, Debug)]
enum Sight {
    Outside(usize),
    Itself(usize),
    OneOf(usize),
}

impl PlainPile {
    pub fn new(heap: Global, world: World) -> Result<PlainPile, AllocError> {
        let below = world.presence(heap)?;
        let fates = vec![in heap; Fate::Here; below.len()]?;
        Ok(PlainPile {
            heap,
            world,
            below,
            fates,
            bound: Vec::new(heap),
            added: 0,
            closed: false,
        })
    }

    // Why a call is refused, if it is.
    fn refusal(&self, kind: u16, first: usize, second: usize) -> Option<Refusal> {
        let refusal = |number, place| {
            Some(Refusal {
                number,
                place,
                layer: 3,
            })
        };
        if kind > 3 {
            return None;
        }
        if self.closed {
            return refusal(7, 0);
        }
        let section = if kind == 1 { second } else { first };
        if self.world.part(section).is_none() {
            return refusal(8, section);
        }
        if kind == 1 && self.bound.as_slice().contains(&first) {
            return refusal(9, first);
        }
        if kind == 1 && self.bound.len() >= 64 {
            return refusal(10, 0);
        }
        if kind == 3 && (self.added >= 64 || self.world.roots.len() >= 4096) {
            return refusal(10, 0);
        }
        None
    }

    // One call.
    pub fn call(&mut self, call: PlainCall) -> Result<Result<(), Refusal>, AllocError> {
        let (first, second) = (usize::from(call.first), usize::from(call.second));
        if let Some(refusal) = self.refusal(call.kind, first, second) {
            return Ok(Err(refusal));
        }
        match call.kind {
            1 => {
                self.bound.push(first)?;
                bind_parts(self.world.parts.as_mut_slice(), first, second);
            }
            2 => {
                if let Some(Some(part)) = self.world.parts.get_mut(first) {
                    part.pinned = true;
                }
            }
            3 => {
                self.added = self.added.saturating_add(1);
                self.world.roots.push(first)?;
            }
            4 => {
                let _ = self.sweep()?;
            }
            _ => {
                let _ = self.fold()?;
            }
        }
        Ok(Ok(()))
    }

    // Makes a section absent.
    fn vacate(&mut self, s: usize, fate: Fate) {
        if let Some(place) = self.world.parts.get_mut(s) {
            *place = None;
        }
        if let Some(old) = self.fates.get_mut(s) {
            *old = fate;
        }
    }

    pub fn sweep(&mut self) -> Result<Counts, AllocError> {
        let reached = reached(self.heap, &self.world)?;
        let before = self.world.present();
        for (s, is_reached) in reached.as_slice().iter().enumerate() {
            if self.world.part(s).is_some() && !*is_reached {
                self.vacate(s, Fate::Gone);
            }
        }
        self.closed = true;
        let present = self.world.present();
        Ok(Counts {
            present,
            dropped: before.saturating_sub(present),
            merged: 0,
            rounds: 0,
        })
    }

    pub fn fold(&mut self) -> Result<Counts, AllocError> {
        let (class, rounds) = settled(self.heap, &self.world)?;
        let before = self.world.present();
        for (s, leader) in class.as_slice().iter().enumerate() {
            if *leader != s {
                self.vacate(s, Fate::Into(*leader));
            }
        }
        join_parts(self.world.parts.as_mut_slice(), class.as_slice());
        join_roots(self.world.roots.as_mut_slice(), class.as_slice());
        self.closed = true;
        let present = self.world.present();
        Ok(Counts {
            present,
            dropped: 0,
            merged: before.saturating_sub(present),
            rounds,
        })
    }

    // Where a section is found, if it is.
    pub fn place(&self, s: usize) -> Option<usize> {
        let mut at = s;
        for _ in 0..self.fates.len() {
            match self.fates.get(at)? {
                Fate::Here => return Some(at),
                Fate::Into(t) => at = *t,
                Fate::Gone => return None,
            }
        }
        None
    }
}

fn bind_links(links: &mut [Link], name: usize, section: usize) {
    for link in links.iter_mut() {
        if link.aim == Aim::Outside(name) {
            link.aim = Aim::Section(section);
        }
    }
}

fn bind_parts(parts: &mut [Option<Part>], name: usize, section: usize) {
    for place in parts.iter_mut() {
        if let Some(part) = place {
            bind_links(part.links.as_mut_slice(), name, section);
        }
    }
}

// The class of a section; a number past them all is its own.
fn class_of(class: &[usize], s: usize) -> usize {
    class.get(s).copied().unwrap_or(s)
}

fn join_links(links: &mut [Link], class: &[usize]) {
    for link in links.iter_mut() {
        if let Aim::Section(t) = link.aim {
            link.aim = Aim::Section(class_of(class, t));
        }
    }
}

fn join_parts(parts: &mut [Option<Part>], class: &[usize]) {
    for place in parts.iter_mut() {
        if let Some(part) = place {
            join_links(part.links.as_mut_slice(), class);
        }
    }
}

fn join_roots(roots: &mut [usize], class: &[usize]) {
    for root in roots.iter_mut() {
        *root = class_of(class, *root);
    }
}

fn mark(reached: &mut [bool], s: usize) {
    if s < reached.len() {
        reached[s] = true;
    }
}

fn reached(heap: Global, world: &World) -> Result<Vec<bool>, AllocError> {
    let count = world.parts.len();
    let mut reached = vec![in heap; false; count]?;
    for root in &world.roots {
        mark(reached.as_mut_slice(), *root);
    }
    // as often as there are sections, so that the longest chain is followed
    for _ in 0..count {
        for s in 0..count {
            if reached.get(s) == Some(&true) {
                mark_links(reached.as_mut_slice(), world, s);
            }
        }
    }
    Ok(reached)
}

fn mark_links(reached: &mut [bool], world: &World, s: usize) {
    if let Some(part) = world.part(s) {
        for link in &part.links {
            if let Aim::Section(t) = link.aim {
                mark(reached, t);
            }
        }
    }
}

fn seen_as(world: &World, class: &[usize], aim: Aim) -> Sight {
    match aim {
        Aim::Outside(e) => Sight::Outside(e),
        Aim::Section(t) if world.is_foldable(t) => Sight::OneOf(class_of(class, t)),
        Aim::Section(t) => Sight::Itself(t),
    }
}

fn same_links(world: &World, class: &[usize], a: &[Link], b: &[Link]) -> bool {
    a.len() == b.len()
        && a.iter().zip(b.iter()).all(|(x, y)| {
            x.offset == y.offset
                && x.kind == y.kind
                && x.displacement == y.displacement
                && seen_as(world, class, x.aim) == seen_as(world, class, y.aim)
        })
}

// Whether two foldable sections look alike where targets are told by their classes.
fn same_parts(world: &World, class: &[usize], s: usize, t: usize) -> bool {
    match (world.part(s), world.part(t)) {
        (Some(a), Some(b)) => {
            !a.pinned
                && !b.pinned
                && a.flags == b.flags
                && a.alignment == b.alignment
                && a.bytes.as_slice() == b.bytes.as_slice()
                && same_links(world, class, a.links.as_slice(), b.links.as_slice())
        }
        _ => false,
    }
}

// The classes one depth on, each by its lowest section.
fn refined(heap: Global, world: &World, class: &[usize]) -> Result<Vec<usize>, AllocError> {
    (0..class.len())
        .map(|s| {
            (0..s)
                .find(|t| same_parts(world, class, s, *t))
                .unwrap_or(s)
        })
        .collect(heap)
}

// The classes that no depth divides any more, and the least depth that has them. At depth 0 all foldable sections are one class.
fn settled(heap: Global, world: &World) -> Result<(Vec<usize>, usize), AllocError> {
    let count = world.parts.len();
    let lowest = (0..count).find(|s| world.is_foldable(*s)).unwrap_or(0);
    let mut class: Vec<usize> = (0..count)
        .map(|s| if world.is_foldable(s) { lowest } else { s })
        .collect(heap)?;
    for rounds in 0..count {
        let next = refined(heap, world, class.as_slice())?;
        if next.as_slice() == class.as_slice() {
            return Ok((class, rounds));
        }
        class = next;
    }
    Ok((class, count))
}
