// The pile over any section graph: binds, pins, roots, sweeps and folds, and the section graph that they leave.
//
// What a call does and answers is defined in the crate `runs`, where all that is promised is proved. A pile means the state that `told`
// reads off the graph below and the inner table, and every call makes of it what the definition says. That some calls led to what a pile
// keeps stands in its type, so that no call and no question asks for anything.

#![tactic(auto)]

ghost use Rattle.std.specs.Prelude.{◌≡◌, [], None};
ghost use Rattle.model.specs.Graph.{count_of, record_of, byte_of, relocation_of, root_count_of, root_of};
ghost use Rattle.graph.specs.Bytes.{digest};
ghost use Rattle.steps.specs.Below.{table as listed};
ghost use Rattle.unfolding.specs.Groups.{present};
ghost use Rattle.unfolding.specs.Reach.{reached};
ghost use Rattle.unfolding.specs.Sections.{rep, rounds};
ghost use Rattle.calls.specs.declared.Call.TheVariants.{Bind, Pin, Root, Sweep, Fold};
ghost use Rattle.calls.specs.declared.Answer.TheVariants.{Accepted, Dropped, Merged};
ghost use Rattle.calls.specs.Outcome.{outcome};
ghost use Rattle.runs.specs.State.{start, refusal, place_of};
ghost use Rattle.ledger.specs.Told.{told, Reachable, Kept};
ghost use Rattle.pile.specs.Does.{Sound, Does, Checked};
ghost use Rattle.pile.specs.Piling.{pile_valid};

use calls::{Answer, Call, Place};
use fault::Fault;
use graph::{SectionGraph, size_told};
use ledger::Ledger;
use model::{Record, Relocation};
use partition::partition;
use reach::reach;
use slots::Present;
use std::array;

// A pile: the graph below, and what was called. That a call leaves the graph below as it was is a clause of its own, `over`, and no field
// of `Does`: that field would need both graphs and their type, two arguments and a type more, and `Checked` has one graph alone.
#[derive(Drop)]
pub struct Pile<G: SectionGraph> {
    below: G,
    table: Ledger,
    pub ghost sound: { Sound (G.SectionGraph.graph below) table },
}

// Whether section `s` of a graph is present.
fn is_present<G: SectionGraph>(graph: &G, s: u16) -> bool
    ensures { result ≡ present (G.SectionGraph.graph graph.now) s }
{
    graph.record_of(s).is_some()
}

// Which sections of a graph are present, and how many it has in all.
fn presence<G: SectionGraph>(graph: &G) -> Present
    ensures there { result.there ≡ listed (present (G.SectionGraph.graph graph.now)) 1024 }
    ensures count { result.count ≡ count_of (G.SectionGraph.graph graph.now) }
{
    Present {
        there: array::from_fn(|s| is_present(graph, s as u16)),
        count: graph.count(),
    }
}

// The digest of no bytes.
fn digest_of_none() -> u64
    ensures { result ≡ digest [] }
{
    14695981039346656037
}

// A pile is a section graph again.
impl<G: SectionGraph> SectionGraph for Pile<G> {
    ghost graph = { λ p. (told (G.SectionGraph.graph p.below) p.table).graph };

    ghost valid = { λ p.
        pile_valid
        (G.SectionGraph.graph p.below)
        (G.SectionGraph.valid p.below)
        p.table
        p.sound };

    #[tactic(auto, using(ledger::proofs::Telling::told_count))]
    fn count(&self) -> u16 {
        self.below.count()
    }

    #[tactic(auto, using(ledger::proofs::Asking::tells_record))]
    fn record_of(&self, s: u16) -> Option<Record> {
        self.table.record(s, self.below.record_of(s))
    }

    #[tactic(auto, using(ledger::proofs::Asking::tells_byte))]
    fn byte(&self, s: u16, i: u16) -> Option<u8> {
        self.table.byte(s, self.below.byte(s, i))
    }

    #[tactic(auto, using(ledger::proofs::Asking::tells_relocation))]
    fn relocation(&self, s: u16, j: u16) -> Option<Relocation> {
        self.table.relocation(s, self.below.relocation(s, j))
    }

    #[tactic(auto, using(ledger::proofs::Asking::tells_root_count))]
    fn root_count(&self) -> u16 {
        self.below.root_count() + self.table.roots.len() as u16
    }

    #[tactic(auto, using(ledger::proofs::Asking::tells_root))]
    fn root(&self, j: u16) -> Option<u16> {
        self.table
            .root(self.below.root_count(), j, self.below.root(j))
    }

    // The bytes of a section that is left are those below, which the graph below may go over faster.
    #[tactic(auto, using(crate::proofs::Bytes::digest_gone, crate::proofs::Bytes::digest_left))]
    fn byte_digest(&self, s: u16) -> u64 {
        if size_told(self.record_of(s)) == 0 {
            return digest_of_none();
        }
        self.below.byte_digest(s)
    }

    #[tactic(auto, using(crate::proofs::Bytes::differ_in_size, crate::proofs::Bytes::both_gone, crate::proofs::Bytes::both_left, crate::proofs::Bytes::both_below))]
    fn same_bytes(&self, s: u16, t: u16) -> bool {
        let size = size_told(self.record_of(s));
        if size != size_told(self.record_of(t)) {
            return false;
        }
        size == 0 || self.below.same_bytes(s, t)
    }
}

impl<G: SectionGraph> Pile<G> {
    // A new pile over a section graph: nothing is bound, pinned or rooted.
    #[tactic(auto, using(crate::specs::Piling::fresh_told, crate::specs::Piling::fresh_reached, crate::specs::Piling::fresh_sound))]
    pub fn new(below: G) -> Pile<G>
        ensures over { result.below ≡ below }
        ensures state { told (G.SectionGraph.graph below) result.table ≡ start (G.SectionGraph.graph below) }
        ensures reachable { Reachable (G.SectionGraph.graph below) result.table }
    {
        Pile {
            below,
            table: Ledger::new(),
        }
    }

    // The graph below.
    pub fn below(&self) -> &G
        ensures { result.now ≡ self.now.below }
    {
        &self.below
    }

    // The place of section `s` of the graph below: a number, swept or absent.
    #[tactic(auto, using(ledger::proofs::Asking::tells_place))]
    pub fn place(&self, s: u16) -> Result<Place, Fault>
        ensures { result ≡ place_of (told (G.SectionGraph.graph self.now.below) self.now.table) s }
    {
        self.table
            .place(self.below.count(), is_present(&self.below, s), s)
    }

    // Whether calls are refused, and why. A check, what is done where it passes, and what a sweep and a fold do by marks and by classes stay
    // functions of their own: by a rule of the project an edit of a call is to be refused at the call, and not in a proof file.

    fn check_bind(&self, name: u16, section: u16) -> Result<(), Fault>
        ensures { Checked (G.SectionGraph.graph self.now.below) self.now.table (Bind name section) result }
    {
        self.table
            .check_bind(is_present(&self.below, section), name, section)
    }

    fn check_pin(&self, section: u16) -> Result<(), Fault>
        ensures { Checked (G.SectionGraph.graph self.now.below) self.now.table (Pin section) result }
    {
        self.table
            .check_pin(is_present(&self.below, section), section)
    }

    fn check_root(&self, section: u16) -> Result<(), Fault>
        ensures { Checked (G.SectionGraph.graph self.now.below) self.now.table (Root section) result }
    {
        self.table.check_root(
            is_present(&self.below, section),
            self.below.root_count(),
            section,
        )
    }

    // The calls.

    // Outside name `name` stands for section `section` from now on: each relocation to it points at the section.
    pub fn bind(&mut self, name: u16, section: u16) -> Result<(), Fault>
        ensures over { self.new.below ≡ self.old.below }
        ensures does { Does (G.SectionGraph.graph self.old.below) self.old.table self.new.table (Bind name section) (outcome result) }
    {
        self.check_bind(name, section)?;
        self.accept_bind(name, section);
        Ok(())
    }

    // The same where it is not refused.
    fn accept_bind(&mut self, name: u16, section: u16)
        requires { refusal (told (G.SectionGraph.graph self.old.below) self.old.table) (Bind name section) ≡ None }
        ensures over { self.new.below ≡ self.old.below }
        ensures does { Does (G.SectionGraph.graph self.old.below) self.old.table self.new.table (Bind name section) Accepted }
    {
        self.table.bind(name, section);
    }

    // Section `section` is pinned: it keeps its number.
    pub fn pin(&mut self, section: u16) -> Result<(), Fault>
        ensures over { self.new.below ≡ self.old.below }
        ensures does { Does (G.SectionGraph.graph self.old.below) self.old.table self.new.table (Pin section) (outcome result) }
    {
        self.check_pin(section)?;
        self.accept_pin(section);
        Ok(())
    }

    // The same where it is not refused.
    fn accept_pin(&mut self, section: u16)
        requires { refusal (told (G.SectionGraph.graph self.old.below) self.old.table) (Pin section) ≡ None }
        ensures over { self.new.below ≡ self.old.below }
        ensures does { Does (G.SectionGraph.graph self.old.below) self.old.table self.new.table (Pin section) Accepted }
    {
        self.table.pin(section);
    }

    // Section `section` is one more root.
    pub fn root(&mut self, section: u16) -> Result<(), Fault>
        ensures over { self.new.below ≡ self.old.below }
        ensures does { Does (G.SectionGraph.graph self.old.below) self.old.table self.new.table (Root section) (outcome result) }
    {
        self.check_root(section)?;
        self.accept_root(section);
        Ok(())
    }

    // The same where it is not refused.
    fn accept_root(&mut self, section: u16)
        requires { refusal (told (G.SectionGraph.graph self.old.below) self.old.table) (Root section) ≡ None }
        ensures over { self.new.below ≡ self.old.below }
        ensures does { Does (G.SectionGraph.graph self.old.below) self.old.table self.new.table (Root section) Accepted }
    {
        self.table.add_root(section);
    }

    // Makes each present section absent that no chain of relocations from a root reaches: how many are present now, and how many were
    // dropped. The counts are a tuple, here and at a fold: a form that was asked for.
    pub fn sweep(&mut self) -> (u16, u16)
        ensures over { self.new.below ≡ self.old.below }
        ensures does { Does (G.SectionGraph.graph self.old.below) self.old.table self.new.table Sweep (Dropped result.0 result.1) }
    {
        let marks = reach(self);
        self.drop_unmarked(&marks)
    }

    // The same by marks. It stays apart from `join_groups`, since a sweep and a fold have other promises; their loop is one.
    fn drop_unmarked(&mut self, marks: &[bool; 1024]) -> (u16, u16)
        requires { marks.now ≡ listed (reached (told (G.SectionGraph.graph self.old.below) self.old.table).graph) 1024 }
        ensures over { self.new.below ≡ self.old.below }
        ensures does { Does (G.SectionGraph.graph self.old.below) self.old.table self.new.table Sweep (Dropped result.0 result.1) }
    {
        let present = presence(self);
        self.table.sweep(&present, marks)
    }

    // Makes one of the present foldable sections whose unfoldings agree at every depth, the lowest: how many sections are present now, how
    // many were merged, and the rounds.
    pub fn fold(&mut self) -> (u16, u16, u16)
        ensures over { self.new.below ≡ self.old.below }
        ensures does { Does (G.SectionGraph.graph self.old.below) self.old.table self.new.table Fold (Merged result.0 result.1 result.2) }
    {
        let mut class = [0; 1024];
        let rounds = partition(self, &mut class);
        let (present, merged) = self.join_groups(&class, rounds);
        (present, merged, rounds)
    }

    // The same by classes; `depth` is the rounds.
    fn join_groups(&mut self, class: &[u16; 1024], depth: u16) -> (u16, u16)
        requires class { class.now ≡ listed (rep (told (G.SectionGraph.graph self.old.below) self.old.table).graph) 1024 }
        requires rounds { depth ≡ rounds (told (G.SectionGraph.graph self.old.below) self.old.table).graph }
        ensures over { self.new.below ≡ self.old.below }
        ensures does { Does (G.SectionGraph.graph self.old.below) self.old.table self.new.table Fold (Merged result.0 result.1 depth) }
    {
        let present = presence(self);
        self.table.fold(&present, class)
    }

    // One call told as data, and its answer.
    pub fn apply(&mut self, call: Call) -> Answer
        ensures over { self.new.below ≡ self.old.below }
        ensures does { Does (G.SectionGraph.graph self.old.below) self.old.table self.new.table call result }
    {
        match call {
            Call::Bind { name, section } => self.bind(name, section).into(),
            Call::Pin { section } => self.pin(section).into(),
            Call::Root { section } => self.root(section).into(),
            Call::Sweep => {
                let (present, dropped) = self.sweep();
                Answer::Dropped { present, dropped }
            }
            Call::Fold => {
                let (present, merged, rounds) = self.fold();
                Answer::Merged {
                    present,
                    merged,
                    rounds,
                }
            }
        }
    }

    // A list of calls on a new pile, done in order. A call that is refused alters nothing, and the list goes on.
    fn apply_all(&mut self, calls: &[Call])
        requires state { told (G.SectionGraph.graph self.old.below) self.old.table ≡ start (G.SectionGraph.graph self.old.below) }
        requires reachable { Reachable (G.SectionGraph.graph self.old.below) self.old.table }
        ensures over { self.new.below ≡ self.old.below }
        ensures reachable { Reachable (G.SectionGraph.graph self.old.below) self.new.table }
        ensures kept { Kept (G.SectionGraph.graph self.old.below) calls.now (told (G.SectionGraph.graph self.old.below) self.new.table) }
    {
        for call in calls {
            let _ = self.apply(*call);
        }
    }
}

// A new pile over a section graph, and a list of calls done in order. All is promised of it that the calls are to keep: what a fold makes
// one, the roots, that nothing smaller has roots alike, and that once swept and folded it does not change.
pub fn run<G: SectionGraph>(below: G, calls: &[Call]) -> Pile<G>
    ensures over { result.below ≡ below }
    ensures reachable { Reachable (G.SectionGraph.graph below) result.table }
    ensures kept { Kept (G.SectionGraph.graph below) calls.now (told (G.SectionGraph.graph below) result.table) }
{
    let mut pile = Pile::new(below);
    pile.apply_all(calls);
    pile
}
