// Fold maps read back: what the map of a pile tells of each section.

#![tactic(auto)]

ghost use Rattle.std.specs.Prelude.{◌≡◌, ◌<◌, Some, slice_set};
ghost use Rattle.std.specs.List.{range_with_len, find};
ghost use Rattle.fates.specs.Rows.{fate_by, read_row};
ghost use Rattle.fates.specs.Laws.{ReadBack, OnlyWritten, BadRows};
ghost use Rattle.fates.specs.Examples.{ExamplesHold};
ghost use Rattle.fates.specs.Maps.{fate_of, is_own, loose, no_fates, row_start, bad_row_at, dangling_at, scanned, checked, read_map};

use fault::{Fault, Kind, Layer};
use row_part::{Cause, byte_at, end_at, short_at};

// A map tells of sections below this number.
pub const SECTIONS: u16 = 1024;

// How long a row is.
const ROW: usize = 38;

// What a fold map tells of a section.
#[derive(Clone, Copy, PartialEq, Eq, Debug)]
pub enum Fate {
    // it is found at its own number
    Own,
    // it was folded, and is found at this lower number
    Folded(u16),
    // it is found nowhere
    Swept,
}

// A fold map as it was read: the fate of each section that has a row.
#[derive(Drop)]
pub struct FoldMap {
    fates: [Option<Fate>; 1024],
}

fn bad_row(at: usize) -> Fault
    ensures { result ≡ bad_row_at at }
{
    Fault::new(Kind::BadRow, at as u64, Layer::Format)
}

fn dangling(at: usize) -> Fault
    ensures { result ≡ dangling_at at }
{
    Fault::new(Kind::Dangling, at as u64, Layer::Format)
}

// The fate that the numbers of a row tell.
fn fate_by(section: u16, outcome: u16, place: u16) -> Result<Fate, Cause>
    ensures { result ≡ fate_by section outcome place }
{
    match outcome {
        1 if place == section => Ok(Fate::Own),
        2 if place < section => Ok(Fate::Folded(place)),
        3 if place == 0 => Ok(Fate::Swept),
        _ => Err(Cause::Range),
    }
}

// The row that the text is, which may tell of no section below `low`: a section and its fate.
#[tactic(auto, unfolding(crate::specs::Rows::read_row))]
fn read_row(text: &[u8], low: u16) -> Result<(u16, Fate), Cause>
    ensures { result ≡ read_row low text.now }
{
    if byte_at(text, 0) != b'M' {
        return Err(Cause::Letter);
    }
    let section = short_at(12, text, 1, 1023)?;
    let outcome = short_at(12, text, 13, 3)?;
    let place = short_at(12, text, 25, 1023)?;
    let fate = fate_by(section, outcome, place)?;
    end_at(text, 37)?;
    if section < low {
        return Err(Cause::Range);
    }
    Ok((section, fate))
}

// What the rows of a text tell, or the refusal of the first that does not form.
fn scan(text: &[u8]) -> Result<FoldMap, Fault>
    ensures { result ≡ scanned text.now }
{
    let mut map = FoldMap::empty();
    let mut low = 0;
    for (k, row) in text.chunks(ROW).enumerate() {
        let Ok((section, fate)) = read_row(row, low) else {
            return Err(bad_row(ROW * k));
        };
        map.set(section, fate);
        low = section + 1;
    }
    Ok(map)
}

impl FoldMap {
    // Reads a fold map. Refused is the first row that does not form, and where all do, the first that names a section which
    // has no row that tells it its own.
    pub fn read(text: &[u8]) -> Result<FoldMap, Fault>
        ensures { result ≡ read_map text.now }
    {
        scan(text)?.checked()
    }

    // What the map tells of section `s`: nothing where it has no row.
    pub fn fate(&self, s: u16) -> Option<Fate>
        ensures { result ≡ fate_of self.now.fates s }
    {
        *self.fates.get(usize::from(s))?
    }

    // The map without rows.
    fn empty() -> FoldMap
        ensures { result.fates ≡ no_fates }
    {
        FoldMap {
            fates: [None; 1024],
        }
    }

    fn set(&mut self, s: u16, fate: Fate)
        requires { s < 1024 }
        ensures { self.new.fates ≡ slice_set self.old.fates s (Some fate) }
    {
        self.fates[usize::from(s)] = Some(fate);
    }

    // Section `s` is found at its own number.
    fn is_own(&self, s: u16) -> bool
        ensures { result ≡ is_own (fate_of self.now.fates s) }
    {
        matches!(self.fate(s), Some(Fate::Own))
    }

    // Section `s` was folded into one that is not found at its own number.
    fn is_loose(&self, s: u16) -> bool
        ensures { result ≡ loose self.now.fates (fate_of self.now.fates s) }
    {
        match self.fate(s) {
            Some(Fate::Folded(place)) => !self.is_own(place),
            _ => false,
        }
    }

    // Where the row of section `s` begins: behind the rows of those below it.
    fn row_start(&self, s: u16) -> usize
        ensures { result ≡ row_start self.now.fates s }
    {
        ROW * (0..s).filter(|t| self.fate(*t).is_some()).count()
    }

    // The first section whose row names one that is not found at its own number.
    fn first_loose(&self) -> Option<u16>
        ensures { result ≡ find (λ s. loose self.now.fates (fate_of self.now.fates s)) (range_with_len 0 1024) }
    {
        (0..SECTIONS).find(|s| self.is_loose(*s))
    }

    // The map itself, unless a row names a section that is not found at its own number.
    fn checked(self) -> Result<FoldMap, Fault>
        ensures { result ≡ checked self.fates }
    {
        match self.first_loose() {
            Some(s) => Err(dangling(self.row_start(s))),
            None => Ok(self),
        }
    }
}

// The text of a map is read as that map, nothing else is read, and no map agrees with a text through the row that is bad.
pub fn exact()
    ensures back { ReadBack }
    ensures only { OnlyWritten }
    ensures bad { BadRows }
{}

// A few small texts, read by the definition.
pub fn examples_hold()
    ensures { ExamplesHold }
{}

#[cfg(test)]
mod tests {
    use super::{Fate, FoldMap};
    use fault::{Fault, Kind, Layer};

    // Why a text is refused, if it is.
    fn refusal(text: &[u8]) -> Option<Fault> {
        FoldMap::read(text).err()
    }

    // What a text tells of a section, if it is a map.
    fn fate(text: &[u8], section: u16) -> Option<Fate> {
        FoldMap::read(text).ok()?.fate(section)
    }

    fn bad_row(place: u64) -> Option<Fault> {
        Some(Fault::new(Kind::BadRow, place, Layer::Format))
    }

    fn dangling(place: u64) -> Option<Fault> {
        Some(Fault::new(Kind::Dangling, place, Layer::Format))
    }

    #[test]
    fn told(rt: HostRuntime) {
        let text =
            b"M           0           1           0\nM           1           2           0\nM           3           3           0\nM        1023           1        1023\n";
        assert_eq!(rt; refusal(text), None);
        assert_eq!(rt; fate(text, 0), Some(Fate::Own));
        assert_eq!(rt; fate(text, 1), Some(Fate::Folded(0)));
        assert_eq!(rt; fate(text, 2), None);
        assert_eq!(rt; fate(text, 3), Some(Fate::Swept));
        assert_eq!(rt; fate(text, 1023), Some(Fate::Own));
        assert_eq!(rt; fate(text, 1024), None);
        assert_eq!(rt; fate(text, 65535), None);
    }

    #[test]
    fn empty(rt: HostRuntime) {
        assert_eq!(rt; refusal(b""), None);
        assert_eq!(rt; fate(b"", 0), None);
    }

    #[test]
    fn bad_forms(rt: HostRuntime) {
        assert_eq!(rt;
            refusal(b"S           0           1           0\n"),
            bad_row(0)
        );
        assert_eq!(rt;
            refusal(b"M           0           1           0"),
            bad_row(0)
        );
        assert_eq!(rt;
            refusal(
                b"M           0           1           0\nM           1           1           1"
            ),
            bad_row(38)
        );
        assert_eq!(rt;
            refusal(b"M           0           1           0\nM"),
            bad_row(38)
        );
        assert_eq!(rt;
            refusal(b"M           0           1           0\n\n"),
            bad_row(38)
        );
        assert_eq!(rt;
            refusal(b"M          00           1           0\n"),
            bad_row(0)
        );
        assert_eq!(rt;
            refusal(b"M          0            1           0\n"),
            bad_row(0)
        );
        assert_eq!(rt;
            refusal(b"M           0           1           0 "),
            bad_row(0)
        );
    }

    #[test]
    fn bad_numbers(rt: HostRuntime) {
        assert_eq!(rt;
            refusal(b"M        1024           1        1024\n"),
            bad_row(0)
        );
        assert_eq!(rt;
            refusal(b"M           0           0           0\n"),
            bad_row(0)
        );
        assert_eq!(rt;
            refusal(b"M           0           4           0\n"),
            bad_row(0)
        );
        assert_eq!(rt;
            refusal(
                b"M           0           1           0\nM           1           1           0\n"
            ),
            bad_row(38)
        );
        assert_eq!(rt;
            refusal(b"M           1           2           1\n"),
            bad_row(0)
        );
        assert_eq!(rt;
            refusal(b"M           1           2           2\n"),
            bad_row(0)
        );
        assert_eq!(rt;
            refusal(b"M           1           3           1\n"),
            bad_row(0)
        );
    }

    #[test]
    fn bad_order(rt: HostRuntime) {
        assert_eq!(rt;
            refusal(
                b"M           1           1           1\nM           0           1           0\n"
            ),
            bad_row(38)
        );
        assert_eq!(rt;
            refusal(
                b"M           1           1           1\nM           1           1           1\n"
            ),
            bad_row(38)
        );
    }

    #[test]
    fn no_such_place(rt: HostRuntime) {
        assert_eq!(rt;
            refusal(b"M           1           2           0\n"),
            dangling(0)
        );
        assert_eq!(rt;
            refusal(
                b"M           0           3           0\nM           1           2           0\n"
            ),
            dangling(38)
        );
        assert_eq!(rt;
            refusal(
                b"M           0           1           0\nM           3           2           0\nM           5           2           3\n"
            ),
            dangling(76)
        );
        assert_eq!(rt;
            refusal(
                b"M           1           2           0\nM           2           2           0\nM           3           4           0\n"
            ),
            bad_row(76)
        );
    }
}
