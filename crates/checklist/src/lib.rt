// Rules as lists of checks in order. The definitions stand in specs/Checks.antt.

#![tactic(auto)]

ghost use Rattle.checklist.specs.Laws.{Verdicts};

// For every list of checks: nothing is refused exactly where all hold, and a refusal is that of the first check that
// does not hold.
#[tactic(auto, using(crate::proofs::Checks::verdict))]
pub fn verdicts()
    ensures { Verdicts }
{}
