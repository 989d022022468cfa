// A reader of tables as docs/TABLE.md has them, written for the trials: each row is read loosely, spelled again and compared.
use crate::shapes::{Aim, Link, Part, Refusal, World};
use crate::spelling::{number, push_bytes, push_row};
use std::alloc::{AllocError, AllocFailed, Global};

// Why there is no table.
#[derive(Drop)]
pub enum Trouble {
    // the row at hand does not form
    BadRow,
    Memory(AllocError),
}

impl From<AllocError> for Trouble {
    fn from(error: AllocError) -> Trouble {
        Trouble::Memory(error)
    }
}

impl<T: Drop> From<AllocFailed<T>> for Trouble {
    fn from(error: AllocFailed<T>) -> Trouble {
        Trouble::Memory(error.into())
    }
}

// A text, where the row at hand begins, and where rows named which sections.
#[derive(Drop)]
struct Cursor<'a> {
    heap: Global,
    text: &'a [u8],
    at: usize,
    named: Vec<(usize, usize)>,
}

// The digits of some columns as a number, whatever else stands there.
fn loose(columns: &[u8]) -> i64 {
    let mut value = 0i64;
    for x in columns {
        if x.is_ascii_digit() {
            value = value
                .saturating_mul(10)
                .saturating_add(i64::from(x.saturating_sub(b'0')));
        }
    }
    if columns.contains(&b'-') {
        value.saturating_neg()
    } else {
        value
    }
}

impl<'a> Cursor<'a> {
    fn letter(&self) -> Option<u8> {
        self.text.get(self.at).copied()
    }

    // The next `length` bytes, if there are so many.
    fn ahead(&self, length: usize) -> Option<&'a [u8]> {
        self.text.get(self.at..self.at.checked_add(length)?)
    }

    // The numbers of the row at hand, if it is one of this letter with so many numbers.
    fn row(&self, letter: char, count: usize) -> Result<Vec<i64>, Trouble> {
        let length = count.saturating_mul(12).saturating_add(2);
        let row = self.ahead(length).ok_or(Trouble::BadRow)?;
        let body = row.get(1..).ok_or(Trouble::BadRow)?;
        let numbers: Vec<i64> = body.chunks(12).take(count).map(loose).collect(self.heap)?;
        let mut again = String::new(self.heap);
        push_row(&mut again, letter, numbers.as_slice())?;
        if again.as_bytes() != row {
            return Err(Trouble::BadRow);
        }
        Ok(numbers)
    }

    // The same of a B row.
    fn byte_row(&self, count: usize) -> Result<Vec<i64>, Trouble> {
        let length = count.saturating_mul(4).saturating_add(2);
        let row = self.ahead(length).ok_or(Trouble::BadRow)?;
        let body = row.get(1..).ok_or(Trouble::BadRow)?;
        let numbers: Vec<i64> = body.chunks(4).take(count).map(loose).collect(self.heap)?;
        let mut again = String::new(self.heap);
        push_bytes(&mut again, numbers.as_slice())?;
        if again.as_bytes() != row {
            return Err(Trouble::BadRow);
        }
        Ok(numbers)
    }

    // Goes on behind the row at hand.
    fn pass(&mut self) {
        let rest = self.text.get(self.at..).unwrap_or(&[]);
        let length = rest.iter().position(|x| *x == b'\n').unwrap_or(0);
        self.at = self.at.saturating_add(length).saturating_add(1);
    }

    fn bytes(&mut self, size: usize) -> Result<Vec<i64>, Trouble> {
        let mut bytes = Vec::new(self.heap);
        for _ in 0..size.div_ceil(16) {
            let due = size.saturating_sub(bytes.len()).min(16);
            let row = self.byte_row(due)?;
            if row.as_slice().iter().any(|x| *x > 255 || *x < 0) {
                return Err(Trouble::BadRow);
            }
            for x in &row {
                bytes.push(*x)?;
            }
            self.pass();
        }
        Ok(bytes)
    }

    fn link(&mut self, size: i64) -> Result<Link, Trouble> {
        let row = self.row('R', 5)?;
        let link = link_of(row.as_slice(), size).ok_or(Trouble::BadRow)?;
        if let Aim::Section(t) = link.aim {
            self.named.push((self.at, t))?;
        }
        self.pass();
        Ok(link)
    }

    fn part(&mut self, count: i64, low: i64) -> Result<(usize, Part), Trouble> {
        let row = self.row('S', 6)?;
        let head = head_of(row.as_slice(), count, low).ok_or(Trouble::BadRow)?;
        self.pass();
        let bytes = self.bytes(head.size)?;
        let mut links = Vec::new(self.heap);
        for _ in 0..head.links {
            links.push(self.link(number(head.size))?)?;
        }
        let part = Part {
            flags: head.flags,
            alignment: head.alignment,
            bytes,
            links,
            pinned: head.pinned,
        };
        Ok((head.number, part))
    }

    fn root(&mut self) -> Result<usize, Trouble> {
        let row = self.row('T', 1)?;
        let root = match row.as_slice() {
            [t] if *t >= 0 && *t <= 65535 => usize::try_from(*t).unwrap_or(0),
            _ => return Err(Trouble::BadRow),
        };
        self.named.push((self.at, root))?;
        self.pass();
        Ok(root)
    }

    fn world(&mut self) -> Result<World, Trouble> {
        let mut world = World::empty(self.heap);
        let row = self.row('H', 2)?;
        let (count, roots) = counts_of(row.as_slice()).ok_or(Trouble::BadRow)?;
        self.pass();
        for _ in 0..count {
            world.parts.push(None)?;
        }
        let mut low = 0;
        for _ in 0..count {
            if self.letter() == Some(b'S') {
                let (s, part) = self.part(count, low)?;
                low = number(s).saturating_add(1);
                if let Some(place) = world.parts.get_mut(s) {
                    *place = Some(part);
                }
            }
        }
        for _ in 0..roots {
            world.roots.push(self.root()?)?;
        }
        let row = self.row('E', 1)?;
        if row.as_slice() != [number(world.present())].as_slice() {
            return Err(Trouble::BadRow);
        }
        self.pass();
        if self.at != self.text.len() {
            return Err(Trouble::BadRow);
        }
        Ok(world)
    }

    // Where the first row stands that names an absent section.
    fn dangling(&self, world: &World) -> Option<usize> {
        self.named
            .iter()
            .find(|named| world.part(named.1).is_none())
            .map(|named| named.0)
    }
}

fn counts_of(row: &[i64]) -> Option<(i64, i64)> {
    match row {
        [n, k] if *n >= 0 && *n <= 1024 && *k >= 0 && *k <= 4096 => Some((*n, *k)),
        _ => None,
    }
}

#[derive(Clone, Copy)]
struct Head {
    number: usize,
    flags: i64,
    alignment: i64,
    size: usize,
    links: usize,
    pinned: bool,
}

// A number from 0 to the highest one.
fn within(x: i64, high: i64) -> Option<usize> {
    if x > high {
        return None;
    }
    usize::try_from(x).ok()
}

fn is_power(x: i64) -> bool {
    let mut power = 1i64;
    for _ in 0..17u8 {
        if x == power {
            return true;
        }
        power = power.saturating_mul(2);
    }
    false
}

fn head_of(row: &[i64], count: i64, low: i64) -> Option<Head> {
    let [s, flags, alignment, size, links, pinned] = row else {
        return None;
    };
    within(*flags, 4294967295)?;
    within(*pinned, 1)?;
    if *s < low || *s >= count || !is_power(*alignment) {
        return None;
    }
    Some(Head {
        number: within(*s, 1023)?,
        flags: *flags,
        alignment: *alignment,
        size: within(*size, 65535)?,
        links: within(*links, 65535)?,
        pinned: *pinned == 1,
    })
}

fn link_of(row: &[i64], size: i64) -> Option<Link> {
    let [offset, kind, outside, target, displacement] = row else {
        return None;
    };
    within(*offset, size.saturating_sub(1))?;
    within(*kind, 4294967295)?;
    let target = within(*target, 65535)?;
    let (aim, high) = match *outside {
        0 => (Aim::Section(target), 2147549182),
        1 => (Aim::Outside(target), 2147483647),
        _ => return None,
    };
    if *displacement < -2147483648 || *displacement > high {
        return None;
    }
    Some(Link {
        offset: *offset,
        kind: *kind,
        aim,
        displacement: *displacement,
    })
}

// The table that a text is, or its refusal.
pub fn read(heap: Global, text: &[u8]) -> Result<Result<World, Refusal>, AllocError> {
    let refusal = |number, place| Refusal {
        number,
        place,
        layer: 2,
    };
    let mut cursor = Cursor {
        heap,
        text,
        at: 0,
        named: Vec::new(heap),
    };
    match cursor.world() {
        Ok(world) => Ok(match cursor.dangling(&world) {
            None => Ok(world),
            Some(place) => Err(refusal(4, place)),
        }),
        Err(Trouble::BadRow) => Ok(Err(refusal(6, cursor.at))),
        Err(Trouble::Memory(error)) => Err(error),
    }
}
