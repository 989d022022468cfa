// The slots of a pile: what became of each section, and where following them ends.

#![tactic(auto)]

ghost use Rattle.std.specs.Prelude.{◌≡◌, ℕ, ◌<◌, ◌≤◌, Option, slice_set};
ghost use Rattle.std.specs.Option.{option_map_or};
ghost use Rattle.calls.specs.declared.Slot.{Slot};
ghost use Rattle.calls.specs.declared.Place.TheVariants.{At, Swept as Nowhere};
ghost use Rattle.runs.specs.State.{slot_of, untouched, found_at};
ghost use Rattle.runs.specs.Seen.{found_number};
ghost use Rattle.slots.specs.Turns.{fresh, stays, drops, dropped_slot, leads, joins, joined_slot, Turned, stays_by, goes_by, slot_by};

use calls::{Place, Slot};

// A slot for each section: untouched, folded into another, or swept. An array of slot enums was asked for; memory is fixed.
#[derive(Drop)]
pub struct Slots {
    pub list: [Slot; 1024],
}

// Which sections are there, of those below `count`: that is the graph's own count and no length, since there is a mark for each number.
#[derive(Drop)]
pub struct Present {
    pub there: [bool; 1024],
    pub count: u16,
    pub ghost few: { count ≤ 1024 },
}

impl Slots {
    // Nothing happened to any section.
    pub fn new() -> Slots
        ensures { result ≡ fresh }
    {
        Slots {
            list: [Slot::Untouched; 1024],
        }
    }

    // The slot of section `s`, untouched past the end.
    pub fn slot(&self, s: u16) -> Slot
        ensures { result ≡ slot_of self.now.list s }
    {
        self.list
            .get(usize::from(s))
            .copied()
            .unwrap_or(Slot::Untouched)
    }

    // Changes one slot.
    pub fn set(&mut self, s: u16, slot: Slot)
        requires { s < 1024 }
        ensures { self.new.list ≡ slice_set self.old.list s slot }
    {
        self.list[usize::from(s)] = slot;
    }

    // Whether section `s` is untouched.
    pub fn is_untouched(&self, s: u16) -> bool
        ensures { result ≡ untouched (slot_of self.now.list s) }
    {
        matches!(self.slot(s), Slot::Untouched)
    }

    // Where section `s` is found, if it is present below: folded ones are followed. A section is folded into a lower one, so that s + 1
    // slots are enough.
    pub fn found(&self, s: u16) -> Place
        ensures { result ≡ found_at self.now.list s }
    {
        self.follow(s).map_or(Place::Swept, Place::At)
    }

    // The section at which following the slots from section `s` on ends: none where it was swept.
    #[tactic(auto, using(crate::proofs::Turning::followed_folded))]
    fn follow(&self, s: u16) -> Option<u16>
        ensures { option_map_or At result Nowhere ≡ found_at self.now.list s }
    {
        // Each step may end it: a fold that is cut short says so less plainly than this loop.
        let mut at = s;
        for _ in 0..=s {
            match self.slot(at) {
                Slot::Untouched => return Some(at),
                Slot::Folded(t) => at = t,
                Slot::Swept => return None,
            }
        }
        None
    }

    // The number that relocations and roots to section `s` go to.
    pub fn number(&self, s: u16) -> u16
        ensures { result ≡ found_number self.now.list s }
    {
        self.follow(s).unwrap_or(s)
    }

    // A sweep and a fold stay two functions, since they promise other things of other arguments; their loop is one, `turn`.
    // Counts are tuples, here and in the crates above: a form that was asked for.

    // Sweeps the sections that are there and not reached: how many are left, and how many were swept.
    #[tactic(auto, using(crate::proofs::Turning::swept_by_rule))]
    pub fn sweep(&mut self, present: &Present, reached: &[bool; 1024]) -> (u16, u16)
        ensures { Turned (dropped_slot present.now.there reached.now) (stays present.now.there reached.now) (drops present.now.there reached.now) present.now.count self.old self.new result.0 result.1 }
    {
        let swept = |s: u16| (!reached[usize::from(s)]).then_some(Slot::Swept);
        self.turn(present, swept)
    }

    // Folds each section that is there into the one that leads its class: how many are left, and how many were folded.
    #[tactic(auto, using(crate::proofs::Turning::folded_by_rule))]
    pub fn fold(&mut self, present: &Present, class: &[u16; 1024]) -> (u16, u16)
        ensures { Turned (joined_slot present.now.there class.now) (leads present.now.there class.now) (joins present.now.there class.now) present.now.count self.old self.new result.0 result.1 }
    {
        let folded = |s: u16| {
            let lead = class[usize::from(s)];
            (lead != s).then_some(Slot::Folded(lead))
        };
        self.turn(present, folded)
    }

    // Gives each section that is there the slot that `choose` has for it, and leaves it where there is none: how many are left, and how
    // many got one.
    fn turn<F: Fn(u16) -> Option<Slot>>(&mut self, present: &Present, choose: F) -> (u16, u16)
        ghost rule: { ℕ → Option Slot }
        requires callable { (s : ℕ) → s < 1024 → F.pre choose s }
        requires chosen { (s : ℕ) (r : _) → s < 1024 → F.post choose s r → r ≡ rule s }
        ensures { Turned (slot_by present.now.there rule) (stays_by present.now.there rule) (goes_by present.now.there rule) present.now.count self.old self.new result.0 result.1 }
    {
        let mut left = 0;
        let mut gone = 0;
        // By number, since one slot is changed through `&mut self`, a form that was asked for.
        for s in 0..present.count {
            if present.there[usize::from(s)] {
                match choose(s) {
                    None => left += 1,
                    Some(slot) => {
                        self.set(s, slot);
                        gone += 1;
                    }
                }
            }
        }
        (left, gone)
    }
}
