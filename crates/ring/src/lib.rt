// A small section graph, to try what works on any: sections 0 and 1 call each other, section 2 calls itself, and all else is alike. Section
// 2 is the root.

#![tactic(auto)]

ghost use Rattle.std.specs.Prelude.{◌≡◌};
ghost use Rattle.model.specs.Graph.{Graph};
ghost use Rattle.ring.specs.Calls.{called, call_of, ring};
ghost use Rattle.std.proofs.Common.{rules};

use graph::SectionGraph;
use model::{Record, Relocation, Setting, Target};

pub mod fork;

// A section of one byte that calls another.
const CALLER: Record = Record {
    flags: 6,
    alignment: 1,
    size: 1,
    relocations: 1,
    setting: Setting::Foldable,
};

#[derive(Drop)]
pub struct Ring;

// The section that section `s` calls.
fn called_by(s: u16) -> Option<u16>
    ensures { result ≡ called s }
{
    match s {
        0 => Some(1),
        1 => Some(0),
        2 => Some(2),
        _ => None,
    }
}

// The one relocation of a section that calls section `t`.
fn call(t: u16) -> Relocation
    ensures { result ≡ call_of t }
{
    Relocation {
        offset: 0,
        kind: 4,
        target: Target::Section(t),
        displacement: 0,
    }
}

impl SectionGraph for Ring {
    ghost graph = { λ _. ring };

    ghost valid = { Prim.search rules };

    fn count(&self) -> u16 {
        3
    }

    fn record_of(&self, s: u16) -> Option<Record> {
        called_by(s).map(|_| CALLER)
    }

    fn byte(&self, s: u16, i: u16) -> Option<u8> {
        called_by(s)?;
        (i == 0).then_some(195)
    }

    fn relocation(&self, s: u16, j: u16) -> Option<Relocation> {
        let t = called_by(s)?;
        (j == 0).then_some(call(t))
    }

    fn root_count(&self) -> u16 {
        1
    }

    fn root(&self, j: u16) -> Option<u16> {
        (j == 0).then_some(2)
    }
}

#[cfg(test)]
mod tests {
    use super::Ring;
    use crate::fork::Fork;
    use partition::partition;
    use reach::reach;

    #[test]
    fn ring_folds_into_one(rt: HostRuntime) {
        let mut class = [9; 1024];
        assert_eq!(rt; partition(&Ring, &mut class), 0);
        assert_eq!(rt; class[0], 0);
        assert_eq!(rt; class[1], 0);
        assert_eq!(rt; class[2], 0);
        assert_eq!(rt; class[3], 3);
    }

    #[test]
    fn ring_is_reached_from_its_root(rt: HostRuntime) {
        let marks = reach(&Ring);
        assert_eq!(rt; marks[0], false);
        assert_eq!(rt; marks[1], false);
        assert_eq!(rt; marks[2], true);
        assert_eq!(rt; marks[3], false);
    }

    #[test]
    fn fork_stays_apart_after_two_rounds(rt: HostRuntime) {
        let mut class = [9; 1024];
        assert_eq!(rt; partition(&Fork, &mut class), 2);
        assert_eq!(rt; class[0], 0);
        assert_eq!(rt; class[1], 1);
        assert_eq!(rt; class[2], 2);
        assert_eq!(rt; class[3], 3);
        assert_eq!(rt; class[4], 4);
        assert_eq!(rt; class[5], 5);
    }

    #[test]
    fn fork_is_reached_from_its_root(rt: HostRuntime) {
        let marks = reach(&Fork);
        assert_eq!(rt; marks[0], true);
        assert_eq!(rt; marks[1], true);
        assert_eq!(rt; marks[2], false);
        assert_eq!(rt; marks[3], false);
        assert_eq!(rt; marks[5], false);
    }
}
