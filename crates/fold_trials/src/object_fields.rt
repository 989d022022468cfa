// The numbers of a file that may be an object, by their places, as docs/OBJECT.md has them, written for the trials.

pub const SYMBOLS: u64 = 2;

pub const ENTRIES: u64 = 4;

pub const BARE_ENTRIES: u64 = 9;

pub const NO_BYTES: u64 = 8;

pub const SIGNIFICANT: u64 = 0x6fff4c03;

pub fn place_of(x: u64) -> usize {
    usize::try_from(x).unwrap_or(usize::MAX)
}

// An addend, if it has 32 bits.
pub fn addend(raw: u64) -> Option<i64> {
    if raw < 2147483648 {
        return i64::try_from(raw).ok();
    }
    let back = i64::try_from(u64::MAX.saturating_sub(raw)).ok()?;
    (back < 2147483648).then_some((-1i64).saturating_sub(back))
}

// The bytes of a file that may be an object.
#[derive(Clone, Copy)]
pub struct Bytes<'a> {
    pub file: &'a [u8],
}

impl<'a> Bytes<'a> {
    // The number of `width` bytes at a place; 0 for those past the end.
    pub fn number(self, place: usize, width: usize) -> u64 {
        let mut value = 0u64;
        for i in 0..width {
            let at = place.saturating_add(width.saturating_sub(i).saturating_sub(1));
            let byte = self.file.get(at).copied().unwrap_or(0);
            value = value.wrapping_mul(256).wrapping_add(u64::from(byte));
        }
        value
    }

    pub fn count(self) -> usize {
        place_of(self.number(60, 2))
    }

    // Where the header of a section stands.
    pub fn header(self, s: usize) -> usize {
        place_of(self.number(40, 8)).saturating_add(s.saturating_mul(64))
    }

    // The number in the header of a section.
    pub fn told(self, s: usize, within: usize, width: usize) -> u64 {
        self.number(self.header(s).saturating_add(within), width)
    }

    pub fn kind(self, s: usize) -> u64 {
        self.told(s, 4, 4)
    }

    pub fn start(self, s: usize) -> usize {
        place_of(self.told(s, 24, 8))
    }

    pub fn size(self, s: usize) -> u64 {
        self.told(s, 32, 8)
    }

    pub fn is_present(self, s: usize) -> bool {
        let apart = [0, 2, 3, 4, 9, 17, 18, SIGNIFICANT];
        self.told(s, 8, 8) & 2 != 0 && !apart.contains(&self.kind(s))
    }

    // The first section of a type.
    pub fn first(self, kind: u64) -> Option<usize> {
        (0..self.count()).find(|s| self.kind(*s) == kind)
    }

    // Where an entry of a section stands, each of 24 bytes.
    pub fn entry(self, s: usize, k: usize) -> usize {
        self.start(s).saturating_add(k.saturating_mul(24))
    }

    pub fn entries(self, s: usize) -> usize {
        place_of(self.size(s) / 24)
    }

    // How many symbols there are, and where one stands.
    pub fn symbols(self) -> usize {
        self.first(SYMBOLS).map_or(0, |table| self.entries(table))
    }

    // The section of a symbol, if it is not outside.
    pub fn home(self, symbol: usize) -> Option<usize> {
        let at = self.entry(self.first(SYMBOLS)?, symbol);
        match self.number(at.saturating_add(6), 2) {
            0 | 0xfff1 | 0xfff2 => None,
            s => Some(place_of(s)),
        }
    }

    pub fn holds_entries(self, s: usize) -> bool {
        self.kind(s) == ENTRIES || self.kind(s) == BARE_ENTRIES
    }

    // The ULEB128 number at a place before `end`, and how many bytes it has.
    pub fn significant(self, place: usize, end: usize) -> Option<(usize, usize)> {
        let mut value = 0u64;
        let mut weight = 1u64;
        for i in 0..5usize {
            let at = place.saturating_add(i);
            if at >= end {
                return None;
            }
            let byte = self.number(at, 1);
            value = value.saturating_add((byte % 128).saturating_mul(weight));
            weight = weight.saturating_mul(128);
            if byte < 128 {
                return (value < 4294967296).then_some((place_of(value), i.saturating_add(1)));
            }
        }
        None
    }

    // Where the bytes of a section end.
    pub fn end(self, s: usize) -> usize {
        self.start(s).saturating_add(place_of(self.size(s)))
    }
}
