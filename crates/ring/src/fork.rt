// A second small section graph. Sections 0 and 2 are alike, but call sections 1 and 3, which differ in their byte. Section 4 is absent,
// section 5 is like section 1 but pinned. Section 0 is the root.
ghost use Rattle.std.specs.Prelude.{◌≡◌};
ghost use Rattle.model.specs.Graph.{Graph};
ghost use Rattle.ring.specs.Calls.{forked, fork, sole_byte};
ghost use Rattle.std.proofs.Common.{rules};

use crate::{CALLER, call};
use graph::SectionGraph;
use model::{Record, Relocation, Setting};

// Each question has a match of its own: a table of the six sections would say most of them twice, and be no plainer.
#[derive(Drop)]
pub struct Fork;

// The section that section `s` calls.
fn calls(s: u16) -> Option<u16>
    ensures { result ≡ forked s }
{
    match s {
        0 => Some(1),
        2 => Some(3),
        _ => None,
    }
}

// The one byte of section `s`.
fn sole(s: u16) -> Option<u8>
    ensures { result ≡ sole_byte s }
{
    match s {
        0 => Some(195),
        1 => Some(1),
        2 => Some(195),
        3 => Some(2),
        5 => Some(1),
        _ => None,
    }
}

impl SectionGraph for Fork {
    ghost graph = { λ _. fork };

    ghost valid = { Prim.search rules };

    fn count(&self) -> u16 {
        6
    }

    fn record_of(&self, s: u16) -> Option<Record> {
        match s {
            0 | 2 => Some(CALLER),
            1 | 3 => Some(Record {
                relocations: 0,
                ..CALLER
            }),
            5 => Some(Record {
                relocations: 0,
                setting: Setting::Pinned,
                ..CALLER
            }),
            _ => None,
        }
    }

    fn byte(&self, s: u16, i: u16) -> Option<u8> {
        let x = sole(s)?;
        (i == 0).then_some(x)
    }

    fn relocation(&self, s: u16, j: u16) -> Option<Relocation> {
        let t = calls(s)?;
        (j == 0).then_some(call(t))
    }

    fn root_count(&self) -> u16 {
        1
    }

    fn root(&self, j: u16) -> Option<u16> {
        (j == 0).then_some(0)
    }
}
