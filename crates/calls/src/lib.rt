// The calls that a pile takes, and what it tells of its sections and answers to a call. Plain data: what a call does stands in the
// crate `runs`.

#![tactic(auto)]

ghost use Rattle.std.specs.Prelude.{◌≡◌};
ghost use Rattle.calls.specs.Outcome.{outcome};

use fault::Fault;

// What became of a section in a pile.
#[derive(Clone, Copy, PartialEq, Eq, Debug)]
pub enum Slot {
    Untouched,
    // folded into the section of this number
    Folded(u16),
    // no root reached it
    Swept,
}

// One call that changes a pile, with its arguments.
#[derive(Clone, Copy, PartialEq, Eq, Debug)]
pub enum Call {
    // the outside name stands for the section from now on
    Bind { name: u16, section: u16 },
    // the section keeps its number
    Pin { section: u16 },
    // the section is one more root
    Root { section: u16 },
    // drop what no root reaches
    Sweep,
    // join what is alike
    Fold,
}

// Where a section of the graph below is found in a pile.
#[derive(Clone, Copy, PartialEq, Eq, Debug)]
pub enum Place {
    // at this number
    At(u16),
    // nowhere: it was swept, or the one that it was folded into
    Swept,
    // nowhere: it is absent below
    Absent,
}

// What a call answers. `present` counts the sections that are present after the call. No Result: an answer is data that the
// theorems speak of, and a list of calls goes on after a refusal.
#[derive(Clone, Copy, PartialEq, Eq, Debug)]
pub enum Answer {
    // a bind, pin or root was done
    Accepted,
    // nothing was done
    Refused(Fault),
    // a sweep, which made this many sections absent
    Dropped {
        present: u16,
        dropped: u16,
    },
    // a fold, which made this many sections absent, after this many rounds
    Merged {
        present: u16,
        merged: u16,
        rounds: u16,
    },
}

// The answer that the result of a bind, pin or root is.
impl From<Result<(), Fault>> for Answer {
    ghost from_gives = { λ res answer. answer ≡ outcome res };

    fn from(res: Result<(), Fault>) -> Answer {
        match res {
            Ok(()) => Answer::Accepted,
            Err(fault) => Answer::Refused(fault),
        }
    }
}
