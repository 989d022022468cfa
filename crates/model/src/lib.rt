// The records that a section graph answers with. What a graph is, and the laws that it keeps, stand in specs/Graph.antt
// and specs/Laws.antt.

#![tactic(auto)]

ghost use Rattle.std.specs.Prelude.{◌≡◌};
ghost use Rattle.model.specs.Graph.{section_named, outside_named};
ghost use Rattle.model.specs.Laws.{is_alignment};

// Whether folding may join a section with others: a pinned one stays itself.
#[derive(Clone, Copy, PartialEq, Eq, Debug)]
pub enum Setting {
    Foldable,
    Pinned,
}

// What a relocation points at: a section by its number, or a name that is defined outside.
#[derive(Clone, Copy, PartialEq, Eq, Debug)]
pub enum Target {
    Section(u16),
    Outside(u16),
}

impl Target {
    // The section that is pointed at, if it is one.
    pub fn section(self) -> Option<u16>
        ensures { result ≡ section_named self }
    {
        match self {
            Target::Section(s) => Some(s),
            Target::Outside(_) => None,
        }
    }

    // The outside name that is pointed at, if it is one.
    pub fn outside(self) -> Option<u16>
        ensures { result ≡ outside_named self }
    {
        match self {
            Target::Section(_) => None,
            Target::Outside(e) => Some(e),
        }
    }
}

// One relocation of a section: which place is filled in, how, and from what.
#[derive(Clone, Copy, PartialEq, Eq, Debug)]
pub struct Relocation {
    pub offset: u16,
    pub kind: u32,
    pub target: Target,
    pub displacement: i64,
}

// What is told of a present section besides its bytes and relocations: `size` counts the bytes, `relocations` the
// relocations.
#[derive(Clone, Copy, PartialEq, Eq, Debug)]
pub struct Record {
    pub flags: u32,
    pub alignment: u32,
    pub size: u16,
    pub relocations: u16,
    pub setting: Setting,
}

// Whether a number is a power of two from 1 to 65,536.
#[tactic(auto, using(crate::proofs::Powers::power_is, crate::proofs::Powers::no_power))]
pub fn is_alignment(value: u64) -> bool
    ensures { result ≡ is_alignment value }
{
    value <= 65536 && value.is_power_of_two()
}
