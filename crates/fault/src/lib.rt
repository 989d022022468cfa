// What every refusal of the library tells: which rule, at which place, from which layer.

#![tactic(auto)]

ghost use Rattle.std.specs.Prelude.{◌≡◌};
ghost use Rattle.fault.specs.Numbers.{kind_number, layer_number};

use thiserror::Error;

// Why an input or a call is refused, each with the number by which it is known outside the library.
#[derive(Clone, Copy, PartialEq, Eq, Debug, Error)]
pub enum Kind {
    #[error("a part runs past the end")]
    Short = 1,
    #[error("not a file of the kind that is read")]
    Foreign = 2,
    #[error("a count or a length is above its limit")]
    Oversize = 3,
    #[error("a number names no section or symbol")]
    Dangling = 4,
    #[error("a field has a value that is not allowed")]
    Misshapen = 5,
    #[error("a row does not form, or does not belong here")]
    BadRow = 6,
    #[error("the pile was swept or folded")]
    Closed = 7,
    #[error("no such section")]
    NoSection = 8,
    #[error("the name was bound before")]
    Bound = 9,
    #[error("no room for another")]
    Full = 10,
    #[error("the buffer is too short")]
    Small = 11,
}

// Which part of the library refused, with its number.
#[derive(Clone, Copy, PartialEq, Eq, Debug)]
pub enum Layer {
    // fields and ULEB128 numbers
    Field = 1,
    // objects and tables
    Format = 2,
    // the pile
    Pile = 3,
    // writers and programs
    Output = 4,
}

// A refusal. It goes up to the caller unchanged.
#[derive(Clone, Copy, PartialEq, Eq, Debug, Error)]
#[error("refused with {} at {place}, layer {}: {kind}", u8::from(*.kind), u8::from(*.layer))]
pub struct Fault {
    pub kind: Kind,
    pub place: u64,
    pub layer: Layer,
}

impl Fault {
    pub fn new(kind: Kind, place: u64, layer: Layer) -> Fault
        ensures { result ≡ record { kind = kind; place = place; layer = layer } }
    {
        Fault { kind, place, layer }
    }
}

impl From<Kind> for u8 {
    ghost from_gives = { λ kind r. r ≡ kind_number kind };

    fn from(kind: Kind) -> u8 {
        kind as u8
    }
}

impl From<Layer> for u8 {
    ghost from_gives = { λ layer r. r ≡ layer_number layer };

    fn from(layer: Layer) -> u8 {
        layer as u8
    }
}
