// Runs of calls on a pile: what any list of calls does to a new pile over any section graph (specs/State.antt), what is promised of it
// (specs/Promise.antt), and laws of it (specs/Laws.antt). A function here has a theorem for its contract, and nothing to do.

#![tactic(auto)]

ghost use Rattle.runs.specs.Promise.{PromiseStands};
ghost use Rattle.runs.specs.Laws.{Draws, Refuses, RunFollows, PileTells, ClosesRight};
ghost use Rattle.runs.specs.Seen.{PileSeen};
ghost use Rattle.runs.specs.Noted.{Notes};
ghost use Rattle.runs.specs.Examples.{ExamplesHold};

// The whole promise, for every valid graph and every list of calls: what a fold joins, the roots, that nothing smaller has roots alike,
// and that a pile that was swept and folded does not change.
pub fn promise_stands()
    ensures { PromiseStands }
{}

// What a bind, a pin and a root do to a section graph.
#[tactic(auto, using(crate::proofs::Draws::draws))]
pub fn calls_draw()
    ensures { Draws }
{}

// The drawn graph can be told at once from where targets go, which sections are pinned and which roots were added.
#[tactic(auto, using(crate::proofs::Noted::notes))]
pub fn calls_noted()
    ensures { Notes }
{}

// When each refusal comes, and that a refused call alters nothing.
pub fn refusals_come()
    ensures { Refuses }
{}

// The drawn graph, the bound names, the added roots and whether the pile is closed follow from the calls that were not refused.
#[tactic(auto, using(crate::proofs::Refusing::run_follows))]
pub fn run_follows()
    ensures { RunFollows }
{}

// What a pile tells of its sections after any calls.
pub fn pile_tells()
    ensures { PileTells }
{}

// The pile's graph is the drawn graph seen through the slots.
#[tactic(auto, using(crate::proofs::Seen::pile_seen))]
pub fn pile_seen()
    ensures { PileSeen }
{}

// What a sweep and a fold do and answer after any calls.
pub fn closes_right()
    ensures { ClosesRight }
{}

// The definitions give what each worked example says.
#[tactic(auto, using(crate::proofs::Examples::examples_hold))]
pub fn examples_hold()
    ensures { ExamplesHold }
{}
