// What a section graph holds, in numbers.

#![tactic(auto)]

ghost use Rattle.std.specs.Prelude.{◌≡◌};
ghost use Rattle.summary.specs.Summed.{summary_of};

use graph::SectionGraph;
use model::Setting;

#[derive(Clone, Copy, PartialEq, Eq, Debug)]
pub struct Summary {
    // all numbers, absent sections included
    pub sections: u16,
    pub present: u16,
    pub pinned: u16,
    pub bytes: u32,
    pub relocations: u32,
    pub roots: u16,
}

// Counts what a section graph holds. One pass for four sums, so a loop.
#[tactic(auto, using(crate::proofs::Sums::sums_all))]
pub fn summarize<G: SectionGraph>(graph: &G) -> Summary
    ensures { result ≡ summary_of (G.SectionGraph.graph graph.now) }
{
    let sections = graph.count();
    let mut present = 0u16;
    let mut pinned = 0u16;
    let mut bytes = 0u32;
    let mut relocations = 0u32;
    for s in 0..sections {
        if let Some(x) = graph.record_of(s) {
            present += 1;
            pinned += u16::from(x.setting == Setting::Pinned);
            bytes += u32::from(x.size);
            relocations += u32::from(x.relocations);
        }
    }
    Summary {
        sections,
        present,
        pinned,
        bytes,
        relocations,
        roots: graph.root_count(),
    }
}
