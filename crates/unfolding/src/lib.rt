// What a section unfolds to, which sections are alike, and the folded and the swept graph: definitions (specs/) and theorems on the
// depths. A function here has a theorem for its contract, and nothing to do.

#![tactic(auto)]

ghost use Rattle.unfolding.specs.Theorems.{PresenceDecided, MarksTell, Narrows, GroupsLast, GroupsSettle, DepthDecides, RoundsAreLeast, LowestRepresents};
ghost use Rattle.unfolding.specs.Matching.{AlikeMatches, MatchingAlike};
ghost use Rattle.unfolding.specs.Examples.{ExamplesHold};

// The sections that are counted are the present ones.
pub fn presence_decided()
    ensures { PresenceDecided }
{}

// Depth 0 tells a pinned section from every other, and no two foldable ones apart.
#[tactic(auto, using(crate::proofs::Theorems::marks_tell))]
pub fn marks_tell()
    ensures { MarksTell }
{}

// Agreement at depth k + 1 gives agreement at depth k.
pub fn depths_narrow()
    ensures { Narrows }
{}

// When two neighbouring depths have the same groups, so have all later ones.
pub fn groups_last()
    ensures { GroupsLast }
{}

// That comes at some depth not above the count of sections.
#[tactic(auto, using(crate::proofs::Theorems::groups_settle))]
pub fn groups_settle()
    ensures { GroupsSettle }
{}

// Agreement there is agreement at every depth.
#[tactic(auto, using(crate::proofs::Theorems::depth_decides))]
pub fn depth_decides()
    ensures { DepthDecides }
{}

// The rounds are the least such depth.
pub fn rounds_are_least()
    ensures { RoundsAreLeast }
{}

// The representative is the lowest of its group.
#[tactic(auto, using(crate::proofs::Theorems::lowest_represents))]
pub fn lowest_represents()
    ensures { LowestRepresents }
{}

// Alike sections give the same answers to the questions, and point at alike sections.
pub fn alike_matches()
    ensures { AlikeMatches }
{}

// Sections that a pairing matches, with all that they lead to, are alike.
pub fn matching_alike()
    ensures { MatchingAlike }
{}

// The definitions give what each worked example says.
#[tactic(auto, using(crate::proofs::Examples::examples_hold))]
pub fn examples_hold()
    ensures { ExamplesHold }
{}
