// What the trials are made on: tables and objects of small graphs, some of them damaged, and short lists of calls.
use crate::chance::Chance;
use crate::damage::{damaged_object, damaged_table};
use crate::object_inputs::put_in_object;
use crate::shapes::{Aim, Link, Part, World};
use crate::spelling::{number, push_table};
use buffers::plain::PlainCall;
use std::alloc::{AllocError, Global};

// A file, the calls, and the room in the two buffers beyond or in place of what is needed.
#[derive(Drop)]
pub struct Input {
    pub file: Vec<u8>,
    pub calls: Vec<PlainCall>,
    pub table_room: Room,
    pub map_room: Room,
}

#[derive(Clone, Copy)]
pub enum Room {
    // so many bytes more than are needed
    Beyond(usize),
    // so many bytes
    Just(usize),
}

// How alike the sections of a graph are: what is usual is not, once in so many times.
#[derive(Clone, Copy)]
struct Usage {
    otherwise: usize,
}

impl Usage {
    fn is_kept(self, chance: &mut Chance) -> bool {
        !chance.once_in(self.otherwise)
    }

    fn pick(self, chance: &mut Chance, usual: i64, others: &[i64]) -> i64 {
        if self.is_kept(chance) {
            usual
        } else {
            chance.pick(others)
        }
    }
}

// A section, which is seldom an absent one, since that makes the whole table a bad one.
fn section(chance: &mut Chance, presence: &[bool]) -> Option<usize> {
    let s = chance.below(presence.len());
    if presence.get(s) == Some(&true) || chance.once_in(60) {
        Some(s)
    } else {
        None
    }
}

fn link(chance: &mut Chance, usage: Usage, presence: &[bool], size: usize) -> Link {
    let aimed = if usage.is_kept(chance) {
        section(chance, presence)
    } else {
        None
    };
    Link {
        offset: number(chance.below(size.min(2))),
        kind: usage.pick(chance, 1, &[2, 4294967295]),
        aim: match aimed {
            Some(s) => Aim::Section(s),
            None => Aim::Outside(chance.below(3)),
        },
        displacement: usage.pick(chance, 0, &[-4, -2147483648, 2147483647]),
    }
}

fn part(
    heap: Global,
    chance: &mut Chance,
    usage: Usage,
    presence: &[bool],
) -> Result<Part, AllocError> {
    let mut bytes = Vec::new(heap);
    for _ in 0..usage.pick(chance, 1, &[0, 2, 2, 17]) {
        bytes.push(usage.pick(chance, 195, &[144, 255]))?;
    }
    let count = if bytes.is_empty() {
        0
    } else {
        usage.pick(chance, 1, &[0, 0, 2, 3])
    };
    let mut links = Vec::new(heap);
    for _ in 0..count {
        links.push(link(chance, usage, presence, bytes.len()))?;
    }
    Ok(Part {
        flags: usage.pick(chance, 6, &[2, 4294967295]),
        alignment: usage.pick(chance, 1, &[4, 65536]),
        bytes,
        links,
        pinned: !usage.is_kept(chance),
    })
}

// A graph in which the sections below `low` are absent.
fn world(heap: Global, chance: &mut Chance, low: usize) -> Result<World, AllocError> {
    let otherwise = match chance.below(3) {
        0 => 3,
        1 => 8,
        _ => 30,
    };
    let usage = Usage { otherwise };
    let mut presence = vec![in heap; false; low]?;
    for _ in 0..chance.below(9) {
        presence.push(!chance.once_in(7))?;
    }
    let mut world = World::empty(heap);
    for there in &presence {
        world.parts.push(if *there {
            Some(part(heap, chance, usage, presence.as_slice())?)
        } else {
            None
        })?;
    }
    for _ in 0..chance.below(6) {
        if let Some(root) = section(chance, presence.as_slice()) {
            world.roots.push(root)?;
        }
    }
    Ok(world)
}

// The number of a section, seldom of an absent one, or one past the last.
fn called(chance: &mut Chance, presence: &[bool]) -> u16 {
    let past = usize::from(chance.once_in(20));
    let s = chance.below(presence.len().saturating_add(past));
    let present = (0..s.saturating_add(1))
        .rev()
        .find(|t| presence.get(*t) == Some(&true));
    let section = if chance.once_in(6) {
        s
    } else {
        present.unwrap_or(s)
    };
    u16::try_from(section).unwrap_or(0)
}

fn call(chance: &mut Chance, presence: &[bool]) -> PlainCall {
    let section = called(chance, presence);
    let kind = match chance.below(40) {
        0..=17 => 1,
        18..=27 => 2,
        28..=35 => 3,
        36 => 4,
        37 => 5,
        38 if chance.once_in(2) => 0,
        39 if chance.once_in(2) => 6,
        _ => 2,
    };
    PlainCall {
        kind,
        first: if kind == 1 { chance.short(4) } else { section },
        second: section,
    }
}

fn call_list(
    heap: Global,
    chance: &mut Chance,
    presence: &[bool],
) -> Result<Vec<PlainCall>, AllocError> {
    let mut calls = Vec::new(heap);
    // now and then as many binds or roots as a pile takes, or some more
    if chance.once_in(25) {
        let kind = if chance.once_in(2) { 1 } else { 3 };
        let section = called(chance, presence);
        for i in 0..chance.short(8).saturating_add(60) {
            let first = if kind == 1 { i } else { section };
            calls.push(PlainCall {
                kind,
                first,
                second: section,
            })?;
        }
    }
    for _ in 0..chance.below(5) {
        calls.push(call(chance, presence))?;
    }
    Ok(calls)
}

fn room_by_chance(chance: &mut Chance) -> Room {
    if chance.once_in(8) {
        Room::Just(chance.below(600))
    } else {
        Room::Beyond(chance.below(9))
    }
}

// What kind of file a trial is made on.
#[derive(Clone, Copy)]
pub enum Form {
    Table,
    Object,
}

// A graph by chance in a file of that form. One of an object has no section 0, and is made such as an object can have it.
fn file_by_chance(
    heap: Global,
    chance: &mut Chance,
    form: Form,
) -> Result<(Vec<u8>, World), AllocError> {
    match form {
        Form::Table => {
            let world = world(heap, chance, 0)?;
            let mut text = String::new(heap);
            push_table(&mut text, &world)?;
            Ok((text.as_bytes().to_vec(heap)?, world))
        }
        Form::Object => {
            let mut world = world(heap, chance, 1)?;
            let file = put_in_object(heap, chance, &mut world)?;
            Ok((file, world))
        }
    }
}

// An input, and the graph that its file is to be read as, where that is known from its making.
pub fn input_by_chance(
    heap: Global,
    chance: &mut Chance,
    form: Form,
) -> Result<(Input, Option<World>), AllocError> {
    let (whole, world) = file_by_chance(heap, chance, form)?;
    let presence = world.presence(heap)?;
    let is_whole = !chance.once_in(3);
    let file = match form {
        _ if is_whole => whole,
        Form::Table => damaged_table(heap, chance, whole.as_slice())?,
        Form::Object => damaged_object(heap, chance, whole.as_slice(), presence.len())?,
    };
    let input = Input {
        file,
        calls: call_list(heap, chance, presence.as_slice())?,
        table_room: room_by_chance(chance),
        map_room: room_by_chance(chance),
    };
    let is_known = is_whole && world.is_closed();
    Ok((input, is_known.then_some(world)))
}
