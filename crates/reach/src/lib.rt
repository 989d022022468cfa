// Which sections a chain of relocations from a root reaches, for any section graph.

#![tactic(auto)]

ghost use Rattle.std.specs.Prelude.{◌≡◌, ℕ, ◌<◌, ◌≤◌, true, false, length, replicate, slice_set, All};
ghost use Rattle.model.specs.Graph.{root_of};
ghost use Rattle.steps.specs.Below.{table};
ghost use Rattle.unfolding.specs.Reach.{reached, marked};
ghost use Rattle.reach.specs.Walk.{aim_of, aims, mark_count, IsFresh, Taken};

use arrayvec::ArrayVec;
use graph::{SectionGraph, relocations_told};
use model::Relocation;

// The sections entered so far: a mark for each number, and those of them whose relocations are still to be followed.
#[derive(Drop)]
struct Walk<'a, G: SectionGraph> {
    graph: &'a G,
    marks: [bool; 1024],
    pending: ArrayVec<u16, 1024>,

    // every marked section is reached
    ghost inside: { (s : ℕ) → marked marks s ≡ true → reached (G.SectionGraph.graph graph.now) s ≡ true },

    // every pending section is marked
    ghost entered: { All (λ s. marked marks s ≡ true) pending.items },

    // no more are pending than are marked
    ghost room: { length pending.items ≤ mark_count marks },
}

// For each number whether the section is present and some chain of relocations from a root reaches it.
//
// Each section is entered once, and each relocation asked once.
pub fn reach<G: SectionGraph>(graph: &G) -> [bool; 1024]
    ensures { result ≡ table (reached (G.SectionGraph.graph graph.now)) 1024 }
{
    let mut walk = Walk::new(graph);
    walk.enter_roots();
    while let Some(s) = walk.pending.pop() {
        walk.follow(s);
    }
    walk.marks
}

// The section that a relocation points at.
fn aim(told: Option<Relocation>) -> Option<u16>
    ensures { result ≡ aim_of told }
{
    told?.target.section()
}

// No section is marked. A function of its own, so that a wrong mark is refused here and not in the proof of `new`.
fn unmarked() -> [bool; 1024]
    ensures { result ≡ replicate 1024 false }
{
    [false; 1024]
}

// Marks section `s`. A function of its own too: a mark that is not set is refused here and not in the proof of `enter`.
fn mark(marks: &mut [bool; 1024], s: u16)
    requires { s < 1024 }
    ensures { marks.new ≡ slice_set marks.old s true }
{
    marks[s as usize] = true;
}

impl<'a, G: SectionGraph> Walk<'a, G> {
    ghost use Rattle.reach.specs.Onward.{Onward};

    // Nothing is entered.
    fn new(graph: &'a G) -> Self
        ensures graph { result.graph.now ≡ graph.now }
        ensures fresh { IsFresh result.marks result.pending.items }
    {
        Walk {
            graph,
            marks: unmarked(),
            pending: ArrayVec::new(),
        }
    }

    // Marks section `s`, which is pending from then on, unless it is marked already: so each section is entered once, and there
    // is room, since no more are pending than are marked.
    fn enter(&mut self, s: u16)
        requires { reached (G.SectionGraph.graph self.old.graph.now) s ≡ true }
        ensures onward { Onward self.old self.new }
        ensures here { marked self.new.marks s ≡ true }
    {
        if !self.marks[s as usize] {
            mark(&mut self.marks, s);
            self.pending.push(s);
        }
    }

    // Enters every root. By number, here and in `follow`: a `for` over `filter_map` was tried in four forms, and its proof did not
    // close, as antt refuses the module that states its goals.
    fn enter_roots(&mut self)
        ensures onward { Onward self.old self.new }
        ensures taken { Taken (root_of (G.SectionGraph.graph self.old.graph.now)) self.new.marks }
    {
        for j in 0..self.graph.root_count() {
            if let Some(s) = self.graph.root(j) {
                self.enter(s);
            }
        }
    }

    // Enters every section that a relocation of section `s` points at.
    fn follow(&mut self, s: u16)
        requires { reached (G.SectionGraph.graph self.old.graph.now) s ≡ true }
        ensures onward { Onward self.old self.new }
        ensures taken { Taken (aims (G.SectionGraph.graph self.old.graph.now) s) self.new.marks }
    {
        for j in 0..relocations_told(self.graph.record_of(s)) {
            if let Some(t) = aim(self.graph.relocation(s, j)) {
                self.enter(t);
            }
        }
    }
}
