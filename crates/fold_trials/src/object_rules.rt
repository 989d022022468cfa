// The rules for objects as docs/OBJECT.md has them, written for the trials: one after another, everything looked up again where it is asked for.
use crate::object_fields::{Bytes, ENTRIES, NO_BYTES, SIGNIFICANT, SYMBOLS, addend, place_of};
use crate::shapes::Refusal;

fn ensure(holds: bool, number: u32, place: usize) -> Result<(), Refusal> {
    if holds {
        return Ok(());
    }
    Err(Refusal {
        number,
        place,
        layer: if number == 1 { 1 } else { 2 },
    })
}

// Whether a number is a power of two, as an alignment may be.
fn is_power(x: u64) -> bool {
    let mut power = 1u64;
    for _ in 0..17u8 {
        if x == power {
            return true;
        }
        power = power.saturating_mul(2);
    }
    false
}

impl<'a> Bytes<'a> {
    fn ensure_at(self, holds: bool, number: u32, s: usize, within: usize) -> Result<(), Refusal> {
        ensure(holds, number, self.header(s).saturating_add(within))
    }

    fn header_of_file(self) -> Result<(), Refusal> {
        let length = self.file.len();
        ensure(length >= 64, 1, length)?;
        ensure(self.number(0, 7) == 0x01_01_02_46_4c_45_7f, 2, 0)?;
        ensure(self.number(16, 2) == 1, 2, 16)?;
        ensure(self.number(58, 2) == 64, 2, 58)?;
        ensure(self.count() >= 1 && self.count() <= 1024, 3, 60)?;
        ensure(self.header(self.count()) <= length, 1, 40)
    }

    fn extent(self, s: usize) -> Result<(), Refusal> {
        let end = self.told(s, 24, 8).saturating_add(self.size(s));
        let fits = place_of(end) <= self.file.len();
        self.ensure_at(
            fits || self.kind(s) == 0 || self.kind(s) == NO_BYTES,
            1,
            s,
            24,
        )
    }

    fn present(self, s: usize) -> Result<(), Refusal> {
        let alignment = self.told(s, 48, 8);
        self.ensure_at(self.told(s, 8, 8) < 4294967296, 5, s, 8)?;
        self.ensure_at(self.size(s) <= 65535, 3, s, 32)?;
        self.ensure_at(alignment == 0 || is_power(alignment), 5, s, 48)
    }

    // Whether a section is the first of its type.
    fn alone(self, kind: u64) -> Result<(), Refusal> {
        for s in 0..self.count() {
            self.ensure_at(self.kind(s) != kind || self.first(kind) == Some(s), 5, s, 4)?;
        }
        Ok(())
    }

    fn table(self, s: usize, highest: usize) -> Result<(), Refusal> {
        self.ensure_at(self.told(s, 56, 8) == 24, 5, s, 56)?;
        self.ensure_at(self.size(s) % 24 == 0, 5, s, 32)?;
        self.ensure_at(self.entries(s) <= highest, 3, s, 32)
    }

    fn symbol(self, at: usize) -> Result<(), Refusal> {
        let told = self.number(at.saturating_add(6), 2);
        if told == 0 || told == 0xfff1 || told == 0xfff2 {
            return Ok(());
        }
        let s = place_of(told);
        let value = self.number(at.saturating_add(8), 8);
        ensure(told < 0xff00, 5, at.saturating_add(6))?;
        ensure(s < self.count(), 4, at.saturating_add(6))?;
        ensure(
            !self.is_present(s) || value <= self.size(s),
            5,
            at.saturating_add(8),
        )
    }

    fn symbol_table(self) -> Result<(), Refusal> {
        let Some(table) = self.first(SYMBOLS) else {
            return Ok(());
        };
        self.table(table, 65536)?;
        for k in 0..self.entries(table) {
            self.symbol(self.entry(table, k))?;
        }
        Ok(())
    }

    fn link(self, at: usize, target: usize) -> Result<(), Refusal> {
        let symbol = place_of(self.number(at.saturating_add(12), 4));
        let aims = symbol < self.symbols()
            && match self.home(symbol) {
                None => true,
                Some(s) => self.is_present(s),
            };
        let raw = self.number(at.saturating_add(16), 8);
        ensure(self.number(at, 8) < self.size(target), 5, at)?;
        ensure(aims, 4, at.saturating_add(8))?;
        ensure(addend(raw).is_some(), 5, at.saturating_add(16))
    }

    fn links(self, s: usize) -> Result<(), Refusal> {
        let target = place_of(self.told(s, 44, 4));
        self.ensure_at(target < self.count(), 4, s, 44)?;
        if !self.is_present(target) {
            return Ok(());
        }
        let again = (0..s).any(|r| self.holds_entries(r)
            && self.told(r, 44, 4) == self.told(s, 44, 4));
        let table = place_of(self.told(s, 40, 4));
        self.ensure_at(self.kind(s) == ENTRIES, 5, s, 4)?;
        self.ensure_at(!again, 5, s, 44)?;
        self.ensure_at(self.first(SYMBOLS) == Some(table), 4, s, 40)?;
        self.table(s, 65535)?;
        for k in 0..self.entries(s) {
            self.link(self.entry(s, k), target)?;
        }
        Ok(())
    }

    fn significance(self) -> Result<(), Refusal> {
        let Some(table) = self.first(SIGNIFICANT) else {
            return Ok(());
        };
        let mut next = self.start(table);
        for place in self.start(table)..self.end(table) {
            if place == next {
                let misshapen = Refusal {
                    number: 5,
                    place,
                    layer: 1,
                };
                let (symbol, length) = self.significant(place, self.end(table)).ok_or(misshapen)?;
                ensure(symbol < self.symbols(), 4, place)?;
                next = next.saturating_add(length);
            }
        }
        Ok(())
    }

    // Whether this is an object, or the refusal of the first rule that it breaks.
    pub fn judge(self) -> Result<(), Refusal> {
        self.header_of_file()?;
        let count = self.count();
        (0..count).try_for_each(|s| self.extent(s))?;
        for s in 0..count {
            if self.is_present(s) {
                self.present(s)?;
            }
        }
        self.alone(SYMBOLS)?;
        self.symbol_table()?;
        for s in 0..count {
            if self.holds_entries(s) {
                self.links(s)?;
            }
        }
        self.alone(SIGNIFICANT)?;
        self.significance()
    }
}
