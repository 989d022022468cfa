// What the trials hold a section graph in: plain vectors, with sections by index.
use std::alloc::{AllocError, Global};

#[derive(Clone, Copy, PartialEq, Eq, Debug)]
pub enum Aim {
    Section(usize),
    Outside(usize),
}

#[derive(Clone, Copy, PartialEq, Eq, Debug)]
pub struct Link {
    pub offset: i64,
    pub kind: i64,
    pub aim: Aim,
    pub displacement: i64,
}

#[derive(Drop)]
pub struct Part {
    pub flags: i64,
    pub alignment: i64,
    pub bytes: Vec<i64>,
    pub links: Vec<Link>,
    pub pinned: bool,
}

#[derive(Drop)]
pub struct World {
    // absent where there is none
    pub parts: Vec<Option<Part>>,
    pub roots: Vec<usize>,
}

impl World {
    pub fn empty(heap: Global) -> World {
        World {
            parts: Vec::new(heap),
            roots: Vec::new(heap),
        }
    }

    pub fn part(&self, s: usize) -> Option<&Part> {
        self.parts.get(s)?.as_ref()
    }

    pub fn is_foldable(&self, s: usize) -> bool {
        self.part(s).is_some_and(|part| !part.pinned)
    }

    // Which sections are present.
    pub fn presence(&self, heap: Global) -> Result<Vec<bool>, AllocError> {
        (0..self.parts.len())
            .map(|s| self.part(s).is_some())
            .collect(heap)
    }

    fn is_there(&self, aim: Aim) -> bool {
        match aim {
            Aim::Section(t) => self.part(t).is_some(),
            Aim::Outside(_) => true,
        }
    }

    // Whether all sections that relocations and roots name are present.
    pub fn is_closed(&self) -> bool {
        let leads = |link: &Link| self.is_there(link.aim);
        self.roots
            .as_slice()
            .iter()
            .all(|t| self.part(*t).is_some())
            && (0..self.parts.len())
                .filter_map(|s| self.part(s))
                .all(|part| part.links.as_slice().iter().all(leads))
    }

    pub fn present(&self) -> usize {
        (0..self.parts.len())
            .filter(|s| self.part(*s).is_some())
            .count()
    }
}

// A refusal by its numbers.
#[derive(Clone, Copy, PartialEq, Eq, Debug)]
pub struct Refusal {
    pub number: u32,
    pub place: usize,
    pub layer: u32,
}
