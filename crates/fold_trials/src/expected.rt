// What a trial is to give, by the plain readers and the plain pile.
use crate::inputs::{Input, Room};
use crate::object_reader::read_object;
use crate::plain_pile::{Counts, PlainPile};
use crate::plain_reader::read;
use crate::shapes::{Refusal, World};
use crate::spelling::{number, push_row, push_table};
use buffers::plain::{PlainCall, PlainReply};
use std::alloc::{AllocError, Global};

// What buffers hold before a trial.
pub const FILLER: u8 = 170;

// A reply, and the two buffers afterwards.
#[derive(Drop)]
pub struct Expected {
    pub reply: PlainReply,
    pub table: Vec<u8>,
    pub map: Vec<u8>,
}

// What a pile comes to: its counts, its table and its fold map.
#[derive(Drop)]
struct Ending {
    counts: Counts,
    table: String,
    map: String,
}

fn unwritten(status: u32, place: usize) -> PlainReply {
    PlainReply {
        status,
        number: 0,
        place: place as u64,
        layer: 0,
        present: 0,
        dropped: 0,
        merged: 0,
        rounds: 0,
        table: 0,
        map: 0,
    }
}

fn with_refusal(refusal: Refusal, reply: PlainReply) -> PlainReply {
    PlainReply {
        status: 1,
        number: refusal.number,
        place: refusal.place as u64,
        layer: refusal.layer,
        ..reply
    }
}

fn short(x: usize) -> u16 {
    u16::try_from(x).unwrap_or(u16::MAX)
}

fn written(ending: &Ending) -> PlainReply {
    PlainReply {
        status: 0,
        number: 0,
        place: 0,
        layer: 0,
        present: short(ending.counts.present),
        dropped: short(ending.counts.dropped),
        merged: short(ending.counts.merged),
        rounds: short(ending.counts.rounds),
        table: ending.table.len(),
        map: ending.map.len(),
    }
}

fn push_map(map: &mut String, pile: &PlainPile) -> Result<(), AllocError> {
    for (s, there) in pile.below.as_slice().iter().enumerate() {
        if *there {
            let (outcome, place) = match pile.place(s) {
                Some(p) if p == s => (1, p),
                Some(p) => (2, p),
                None => (3, 0),
            };
            push_row(map, 'M', &[number(s), outcome, number(place)])?;
        }
    }
    Ok(())
}

// Calls on a pile over a graph, then a sweep and a fold.
fn end_of(
    heap: Global,
    world: World,
    calls: &[PlainCall],
) -> Result<Result<Ending, Refusal>, AllocError> {
    let mut pile = PlainPile::new(heap, world)?;
    for call in calls {
        if let Err(refusal) = pile.call(*call)? {
            return Ok(Err(refusal));
        }
    }
    let swept = pile.sweep()?;
    let folded = pile.fold()?;
    let mut ending = Ending {
        counts: Counts {
            dropped: swept.dropped,
            ..folded
        },
        table: String::new(heap),
        map: String::new(heap),
    };
    push_table(&mut ending.table, &pile.world)?;
    push_map(&mut ending.map, &pile)?;
    Ok(Ok(ending))
}

// The graph of a file, or its refusal. What begins as an object does is read as one.
fn graph(heap: Global, file: &[u8]) -> Result<Result<World, Refusal>, AllocError> {
    if file.first() == Some(&0x7f) {
        read_object(heap, file)
    } else {
        read(heap, file)
    }
}

fn told(
    heap: Global,
    input: &Input,
    meant: Option<World>,
) -> Result<Result<Ending, PlainReply>, AllocError> {
    let unknown = |call: &PlainCall| call.kind == 0 || call.kind > 5;
    if let Some(index) = input.calls.as_slice().iter().position(unknown) {
        return Ok(Err(unwritten(3, index)));
    }
    let graph = match meant {
        Some(world) => Ok(world),
        None => graph(heap, input.file.as_slice())?,
    };
    let world = match graph {
        Ok(world) => world,
        Err(refusal) => return Ok(Err(with_refusal(refusal, unwritten(1, 0)))),
    };
    Ok(end_of(heap, world, input.calls.as_slice())?.map_err(|refusal| with_refusal(
        refusal,
        unwritten(1, 0),
    )))
}

fn bytes_in(room: Room, needed: usize) -> usize {
    match room {
        Room::Beyond(more) => needed.saturating_add(more),
        Room::Just(room) => room,
    }
}

fn buffer(heap: Global, length: usize) -> Result<Vec<u8>, AllocError> {
    vec![in heap; FILLER; length]
}

// A text over the front of a buffer.
fn put(buffer: &mut [u8], text: &[u8]) {
    for (old, x) in buffer.iter_mut().zip(text.iter()) {
        *old = *x;
    }
}

// What an input is to give. The graph is read where it is not known.
pub fn expectation(
    heap: Global,
    input: &Input,
    meant: Option<World>,
) -> Result<Expected, AllocError> {
    let ending = match told(heap, input, meant)? {
        Ok(ending) => ending,
        Err(reply) => {
            return Ok(Expected {
                reply,
                table: buffer(heap, bytes_in(input.table_room, 0))?,
                map: buffer(heap, bytes_in(input.map_room, 0))?,
            });
        }
    };
    let mut expected = Expected {
        reply: written(&ending),
        table: buffer(heap, bytes_in(input.table_room, ending.table.len()))?,
        map: buffer(heap, bytes_in(input.map_room, ending.map.len()))?,
    };
    let needed = if expected.table.len() < ending.table.len() {
        Some(ending.table.len())
    } else if expected.map.len() < ending.map.len() {
        Some(ending.map.len())
    } else {
        None
    };
    if let Some(place) = needed {
        let small = Refusal {
            number: 11,
            place,
            layer: 4,
        };
        expected.reply = with_refusal(small, expected.reply);
    } else {
        put(expected.table.as_mut_slice(), ending.table.as_bytes());
        put(expected.map.as_mut_slice(), ending.map.as_bytes());
    }
    Ok(expected)
}
