// Files that are spoilt by chance: a byte set, the end cut off, rows in each other's place.
use crate::chance::Chance;
use std::alloc::{AllocError, Global};

// A byte that a table may well have where another stands.
fn byte(chance: &mut Chance) -> u8 {
    let likely = chance.pick(&[
        32, 10, 45, 48, 49, 50, 57, 72, 83, 66, 82, 84, 69, 127, 256, 256,
    ]);
    u8::try_from(likely).unwrap_or(u8::try_from(chance.below(256)).unwrap_or(0))
}

// How many rows a text has.
fn row_count(text: &[u8]) -> usize {
    text.iter().filter(|x| **x == b'\n').count()
}

// Row `k`, without its end.
fn row_at(text: &[u8], k: usize) -> &[u8] {
    text.split(|x| *x == b'\n').nth(k).unwrap_or(&[])
}

// The text with two of its rows in each other's place.
fn rows_swapped(heap: Global, chance: &mut Chance, text: &[u8]) -> Result<Vec<u8>, AllocError> {
    let count = row_count(text);
    let (one, other) = (chance.below(count), chance.below(count));
    let mut swapped = Vec::new(heap);
    for i in 0..count {
        let from = if i == one {
            other
        } else if i == other {
            one
        } else {
            i
        };
        swapped.extend_from_slice(row_at(text, from))?;
        swapped.push(b'\n')?;
    }
    Ok(swapped)
}

// The file with another byte at one place.
fn with_byte(heap: Global, file: &[u8], place: usize, x: u8) -> Result<Vec<u8>, AllocError> {
    let mut changed = file.to_vec(heap)?;
    if let Some(old) = changed.get_mut(place) {
        *old = x;
    }
    Ok(changed)
}

pub fn damaged_table(
    heap: Global,
    chance: &mut Chance,
    text: &[u8],
) -> Result<Vec<u8>, AllocError> {
    let place = chance.below(text.len());
    match chance.below(4) {
        0 => text.get(..place).unwrap_or(&[]).to_vec(heap),
        1 => rows_swapped(heap, chance, text),
        _ => {
            let x = byte(chance);
            with_byte(heap, text, place, x)
        }
    }
}

// A place in an object: any, or one at which its header or that of a section tells something.
fn place_in_object(chance: &mut Chance, length: usize, count: usize) -> usize {
    let headers = length.saturating_sub(count.saturating_mul(64));
    match chance.below(4) {
        0 => chance.below(length),
        1 => place(chance, 0, &[0, 1, 4, 6, 16, 17, 40, 41, 58, 60, 60, 61]),
        _ => {
            let header = chance.below(count).saturating_mul(64);
            place(
                chance,
                headers.saturating_add(header),
                &[4, 4, 7, 8, 10, 12, 24, 25, 32, 34, 40, 44, 48, 50, 51, 56],
            )
        }
    }
}

// One of some places behind another.
fn place(chance: &mut Chance, start: usize, places: &[i64]) -> usize {
    usize::try_from(chance.pick(places)).map_or(start, |x| start.saturating_add(x))
}

// An object with so many headers at its end, spoilt.
pub fn damaged_object(
    heap: Global,
    chance: &mut Chance,
    file: &[u8],
    count: usize,
) -> Result<Vec<u8>, AllocError> {
    if chance.once_in(12) {
        let length = chance.below(file.len().min(160));
        return file.get(..length).unwrap_or(&[]).to_vec(heap);
    }
    let place = place_in_object(chance, file.len(), count);
    let likely = chance.pick(&[0, 1, 2, 3, 4, 8, 9, 24, 32, 48, 64, 128, 255, 256]);
    let x = u8::try_from(likely).unwrap_or(u8::try_from(chance.below(256)).unwrap_or(0));
    with_byte(heap, file, place, x)
}
