// The folded and the swept graph: theorems on the definitions of crate `unfolding`. A function here has a theorem for its contract, and
// nothing to do.

#![tactic(auto)]

ghost use Rattle.folding.specs.Theorems.{FoldFolds, FoldValid, ReachDecided, SweepSweeps, SweepValid, FoldKeepsReached, SweepKeepsApart, Settled, BothFinish};

// The fold leaves the lowest of each group, sections and roots unfold as they did, and no two different sections are alike.
pub fn fold_folds()
    ensures { FoldFolds }
{}

// The folded graph keeps the laws.
pub fn fold_valid()
    ensures { FoldValid }
{}

// The test by rounds finds what a chain of relocations from a root reaches.
#[tactic(auto, using(crate::proofs::Theorems::reach_decided))]
pub fn reach_decided()
    ensures { ReachDecided }
{}

// The sweep leaves what is reached, as it was.
pub fn sweep_sweeps()
    ensures { SweepSweeps }
{}

// The swept graph keeps the laws.
pub fn sweep_valid()
    ensures { SweepValid }
{}

// Folding leaves everything reached that was.
pub fn fold_keeps_reached()
    ensures { FoldKeepsReached }
{}

// Sweeping makes no two sections alike.
pub fn sweep_keeps_apart()
    ensures { SweepKeepsApart }
{}

// A second fold, or a second sweep, changes nothing.
#[tactic(auto, using(crate::proofs::Theorems::settled))]
pub fn settled()
    ensures { Settled }
{}

// After a fold and a sweep, in either order, neither changes anything.
#[tactic(auto, using(crate::proofs::Theorems::both_finish))]
pub fn both_finish()
    ensures { BothFinish }
{}
