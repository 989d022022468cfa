// Which present foldable sections agree at every depth, and after how many rounds their groups are settled, for any section graph.

#![tactic(auto)]

ghost use Rattle.std.specs.Prelude.{◌≡◌, ℕ, ◌<◌, ◌≤◌, IfSome, slice_index, unwrap_or};
ghost use Rattle.steps.specs.Below.{table};
ghost use Rattle.unfolding.specs.Sections.{rep, rounds};
ghost use Rattle.partition.specs.Classes.{Finds, Found, marked_class, joined, based, base_at, digest_of, Based, Bases, Classes, Refined};

use content::{content_digest, may_fold, same_aims, same_content};
use graph::SectionGraph;
use std::array;

// The base of a foldable section, the lowest foldable one with the same content but for the sections that relocations point at, and a
// digest of that content. A section that may not be folded has `NO_BASE`, which no section leads, and no option is asked: two searches
// go over all pairs of sections, and with an option in each place they took twice as long.
#[derive(Clone, Copy, PartialEq, Eq, Debug)]
struct Base {
    leader: u16,
    digest: u64,
}

const NO_BASE: Base = Base {
    leader: 1024,
    digest: 0,
};

// A foldable section whose base is sought: the bases of the sections below it, and the digest of its content.
// Apart from `Refinement`: here the bases are known below the section only.
#[derive(Drop)]
struct Sought<'a, G: SectionGraph> {
    graph: &'a G,
    bases: &'a [Base; 1024],
    section: u16,
    digest: u64,
    ghost small: { section < 1024 },
    ghost below: { Based (G.SectionGraph.graph graph.now) bases.now section },
    ghost known: { digest ≡ digest_of (G.SectionGraph.graph graph.now) section },
}

// What a round of the refinement goes by: the sections and their bases.
#[derive(Drop)]
struct Refinement<'a, G: SectionGraph> {
    graph: &'a G,
    bases: &'a [Base; 1024],
    ghost known: { Bases (G.SectionGraph.graph graph.now) bases.now },
}

// Puts into `class` for each section the lowest one that agrees with it at every depth, itself for a section that is pinned or absent,
// and answers the rounds: the least depth that has the same groups as the next. The caller gives the array: a pair of 2 KiB and
// a number would be no plainer, and may be copied once more.
//
// It goes on from the classes at depth 0, depth by depth, until a round changes nothing; as many rounds as there are sections are enough.
#[tactic(auto, using(crate::proofs::Turns::turn_end, crate::proofs::Turns::rounds_end))]
pub fn partition<G: SectionGraph>(graph: &G, class: &mut [u16; 1024]) -> u16
    ensures classes { class.new ≡ table (rep (G.SectionGraph.graph graph.now)) 1024 }
    ensures rounds { result ≡ rounds (G.SectionGraph.graph graph.now) }
{
    *class = by_mark(graph);
    let bases = bases(graph);
    let refinement = Refinement {
        graph,
        bases: &bases,
    };
    let limit = graph.count();
    for k in 0..limit {
        let next = refinement.refine(class);
        if next == *class {
            return k;
        }
        *class = next;
    }
    limit
}

// The lowest number from `first` on and below `end` that passes.
fn lowest<F: Fn(u16) -> bool>(first: u16, end: u16, passes: F) -> Option<u16>
    requires { (t : ℕ) → first ≤ t → t < end → F.pre passes t }
    ensures inside { IfSome result (λ m. m < end) }
    ensures lowest { Finds (F.post passes) first end (unwrap_or result end) }
{
    (first..end).find(
        |&t|
            requires { F.pre passes t }
        { passes(t) },
    )
}

// The class of section `s` at depth 0, where `first` is the lowest foldable section.
fn class_by_mark<G: SectionGraph>(graph: &G, first: Option<u16>, s: u16) -> u16
    ensures { result ≡ marked_class (G.SectionGraph.graph graph.now) first s }
{
    if may_fold(graph, s) {
        first.unwrap_or(s)
    } else {
        s
    }
}

// The classes at depth 0: the foldable sections are one class.
fn by_mark<G: SectionGraph>(graph: &G) -> [u16; 1024]
    ensures { Classes (G.SectionGraph.graph graph.now) 0 result }
{
    let first = lowest(0, 1024, |s| may_fold(graph, s));
    array::from_fn(
        |s|
            requires { s < 1024 }
        { class_by_mark(graph, first, s as u16) },
    )
}

impl<'a, G: SectionGraph> Sought<'a, G> {
    // Whether section `t` leads its base, and this is the base that is sought: unequal digests decide, equal ones do not.
    #[tactic(auto, using(crate::proofs::Leaders::based_by_digests))]
    fn joins(&self, t: u16) -> bool
        requires { t < self.now.section }
        ensures { result ≡ based (G.SectionGraph.graph self.now.graph.now) self.now.bases.now self.now.section t }
    {
        let base = self.bases[t as usize];
        base.leader == t && base.digest == self.digest && same_content(self.graph, t, self.section)
    }

    // The lowest section below that leads the base that is sought, and the section itself if there is none.
    fn leader(&self) -> u16
        ensures { Found (based (G.SectionGraph.graph self.now.graph.now) self.now.bases.now self.now.section) 0 self.now.section result }
    {
        lowest(0, self.section, |t| self.joins(t)).unwrap_or(self.section)
    }
}

// The base of section `s` from those of the sections below it.
fn base_of<G: SectionGraph>(graph: &G, bases: &[Base; 1024], s: u16) -> Base
    requires small { s < 1024 }
    requires below { Based (G.SectionGraph.graph graph.now) bases.now s }
    ensures { result ≡ base_at (G.SectionGraph.graph graph.now) s }
{
    if !may_fold(graph, s) {
        return NO_BASE;
    }
    let digest = content_digest(graph, s);
    let sought = Sought {
        graph,
        bases,
        section: s,
        digest,
    };
    let leader = sought.leader();
    Base { leader, digest }
}

// The base of each section. A loop over the numbers, since each base is found from those before it.
#[tactic(auto, using(crate::proofs::Leaders::filled_start, crate::proofs::Leaders::filled_set, crate::proofs::Leaders::filled_end))]
fn bases<G: SectionGraph>(graph: &G) -> [Base; 1024]
    ensures { Bases (G.SectionGraph.graph graph.now) result }
{
    let mut bases = [NO_BASE; 1024];
    for s in 0..1024u16 {
        let here = base_of(graph, &bases, s);
        bases[s as usize] = here;
    }
    bases
}

impl<'a, G: SectionGraph> Refinement<'a, G> {
    // Whether section `s` joins section `t` in a round: `t` leads its new class, and both have the same old class, the same base, and
    // targets in the same old classes. Of the two bases the leaders alone are compared: where they are the same, so are the digests.
    #[tactic(auto, using(crate::proofs::Leaders::joined_by_leaders))]
    fn joins(&self, old: &[u16; 1024], new: &[u16; 1024], s: u16, t: u16) -> bool
        requires small { s < 1024 }
        requires low { t < s }
        ensures { result ≡ joined (G.SectionGraph.graph self.now.graph.now) self.now.bases.now old.now new.now s t }
    {
        new[t as usize] == t
            && old[t as usize] == old[s as usize]
            && self.bases[t as usize].leader == self.bases[s as usize].leader
            && same_aims(self.graph, old, t, s)
    }

    // The lowest section from the old class of `s` on that `s` joins, and `s` itself if there is none.
    fn leader(&self, old: &[u16; 1024], new: &[u16; 1024], s: u16) -> u16
        requires { s < 1024 }
        ensures { Found (joined (G.SectionGraph.graph self.now.graph.now) self.now.bases.now old.now new.now s) (slice_index old.now s) s result }
    {
        let first = old[s as usize];
        lowest(first, s, |t| self.joins(old, new, s, t)).unwrap_or(s)
    }

    // A round: from the classes at one depth those at the next. A loop over the numbers, since each class is found from those before it.
    fn refine(&self, old: &[u16; 1024]) -> [u16; 1024]
        ensures { Refined (G.SectionGraph.graph self.now.graph.now) old.now result }
    {
        let mut new = [0; 1024];
        for s in 0..1024u16 {
            let leader = self.leader(old, &new, s);
            new[s as usize] = leader;
        }
        new
    }
}
