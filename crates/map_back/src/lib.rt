// The fold map of any pile is read back. The writer and the reader are two crates, and neither stands on the other: here is what
// is true of both. A function has a theorem for its contract, and nothing to do.

#![tactic(auto)]

ghost use Rattle.map_back.specs.Trips.{MapsReadBack};

// The map of a new pile after any calls is accepted, and what is read of each section is what the place question answers.
#[tactic(auto, using(crate::proofs::Trips::maps_read_back))]
pub fn maps_read_back()
    ensures { MapsReadBack }
{}
