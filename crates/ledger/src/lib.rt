// The plain inner table of a pile: what became of each section, and what was pinned, bound and rooted. It knows nothing of the graph
// below: it answers from that graph's answers.

#![tactic(auto)]

ghost use Rattle.std.specs.Prelude.{◌≡◌, ◌<◌, None, cond};
ghost use Rattle.arrayvec.specs.ArrayVec.{array_vec_len};
ghost use Rattle.fault.specs.Refusal.{ok_unless};
ghost use Rattle.unfolding.specs.Groups.{aimed_at};
ghost use Rattle.unfolding.specs.Reach.{has};
ghost use Rattle.runs.specs.Laws.{pinned_record};
ghost use Rattle.runs.specs.State.{fault_at};
ghost use Rattle.slots.specs.Turns.{stays, drops, dropped_slot, leads, joins, joined_slot};
ghost use Rattle.ledger.specs.Edits.{fresh, with_bind, with_pin, with_root, Shut};
ghost use Rattle.ledger.specs.Told.{bound_by, bound_names, pinned};
ghost use Rattle.ledger.specs.Answers.{stands, seen_record, seen_byte, seen_target, seen_relocation, added_root, seen_root, placed, section_bound, bind_refused, pin_refused, root_refused};

use arrayvec::ArrayVec;
use calls::Place;
use fault::{Fault, Kind, Layer};
use model::{Record, Relocation, Setting, Target};
use slots::{Present, Slots};

// An outside name that was bound, and the section that it stands for.
#[derive(Clone, Copy, PartialEq, Eq, Debug, Default)]
pub struct Bind {
    pub name: u16,
    pub section: u16,
}

// What a pile keeps beside the graph below.
#[derive(Drop)]
pub struct Ledger {
    // what became of each section
    pub slots: Slots,
    // the sections that were pinned: a mark for each number, as the slots are, since memory is fixed
    pub pins: [bool; 1024],
    // the outside names that were bound, in order
    pub binds: ArrayVec<Bind, 64>,
    // the roots that were added, in order
    pub roots: ArrayVec<u16, 64>,
    // a sweep or a fold was done
    pub closed: bool,
}

// A refusal of the pile.
fn refused(kind: Kind, place: u64) -> Fault
    ensures { result ≡ fault_at kind place }
{
    Fault::new(kind, place, Layer::Pile)
}

// The record of a section that was pinned.
fn as_pinned(told: Record) -> Record
    ensures { result ≡ pinned_record told }
{
    Record {
        setting: Setting::Pinned,
        ..told
    }
}

impl Ledger {
    // Nothing was called.
    pub fn new() -> Ledger
        ensures { result ≡ fresh }
    {
        Ledger {
            slots: Slots::new(),
            pins: [false; 1024],
            binds: ArrayVec::new(),
            roots: ArrayVec::new(),
            closed: false,
        }
    }

    // Name `name` stands for section `section` from now on.
    pub fn bind(&mut self, name: u16, section: u16)
        requires { array_vec_len self.old.binds < 64 }
        ensures { self.new ≡ with_bind self.old name section }
    {
        self.binds.push(Bind { name, section });
    }

    // Section `s` is pinned.
    pub fn pin(&mut self, s: u16)
        requires { s < 1024 }
        ensures { self.new ≡ with_pin self.old s }
    {
        self.pins[usize::from(s)] = true;
    }

    // Section `section` is one more root.
    pub fn add_root(&mut self, section: u16)
        requires { array_vec_len self.old.roots < 64 }
        ensures { self.new ≡ with_root self.old section }
    {
        self.roots.push(section);
    }

    // A sweep and a fold stay two functions, since they are promised other things; their loop is one, in `slots`.

    // Sweeps the sections that are there and not reached, and closes: how many are left, and how many were swept.
    pub fn sweep(&mut self, present: &Present, reached: &[bool; 1024]) -> (u16, u16)
        ensures { Shut (dropped_slot present.now.there reached.now) (stays present.now.there reached.now) (drops present.now.there reached.now) present.now.count self.old self.new result.0 result.1 }
    {
        let counts = self.slots.sweep(present, reached);
        self.closed = true;
        counts
    }

    // Folds each section that is there into the one that leads its class, and closes: how many are left, and how many were folded.
    pub fn fold(&mut self, present: &Present, class: &[u16; 1024]) -> (u16, u16)
        ensures { Shut (joined_slot present.now.there class.now) (leads present.now.there class.now) (joins present.now.there class.now) present.now.count self.old self.new result.0 result.1 }
    {
        let counts = self.slots.fold(present, class);
        self.closed = true;
        counts
    }

    // Whether section `s` was pinned.
    fn is_pinned(&self, s: u16) -> bool
        ensures { result ≡ pinned self.now s }
    {
        self.pins.get(usize::from(s)).copied().unwrap_or(false)
    }

    // The section that `name` stands for, if it was bound.
    fn section_bound(&self, name: u16) -> Option<u16>
        ensures { result ≡ section_bound self.now name }
    {
        self.binds
            .iter()
            .find(|bind| bind.name == name)
            .map(|bind| bind.section)
    }

    // Whether `name` was bound.
    fn is_bound(&self, name: u16) -> bool
        ensures { result ≡ has (bound_names self.now) name }
    {
        self.section_bound(name).is_some()
    }

    // What a target of the graph below is after the binds.
    fn bound_target(&self, target: Target) -> Target
        ensures { result ≡ bound_by self.now target }
    {
        match target {
            Target::Section(_) => target,
            Target::Outside(e) => self.section_bound(e).map_or(target, Target::Section),
        }
    }

    // And where it goes by the slots.
    fn target(&self, target: Target) -> Target
        ensures { result ≡ seen_target self.now target }
    {
        match self.bound_target(target) {
            Target::Section(t) => Target::Section(self.slots.number(t)),
            Target::Outside(e) => Target::Outside(e),
        }
    }

    // A relocation with its target put there: nothing else changes.
    fn aim(&self, told: Relocation) -> Relocation
        ensures { result ≡ aimed_at (seen_target self.now) told }
    {
        Relocation {
            target: self.target(told.target),
            ..told
        }
    }

    // What the graph below tells of section `s`, where the section is untouched.
    fn left<T: Drop>(&self, s: u16, told: Option<T>) -> Option<T>
        ensures { result ≡ cond (stands self.now s) told None }
    {
        told.filter(|_| self.slots.is_untouched(s))
    }

    // The record of section `s`, from that of the graph below.
    pub fn record(&self, s: u16, told: Option<Record>) -> Option<Record>
        ensures { result ≡ seen_record self.now s told }
    {
        let record = self.left(s, told)?;
        Some(if self.is_pinned(s) {
            as_pinned(record)
        } else {
            record
        })
    }

    // A byte of section `s`.
    pub fn byte(&self, s: u16, told: Option<u8>) -> Option<u8>
        ensures { result ≡ seen_byte self.now s told }
    {
        self.left(s, told)
    }

    // A relocation of section `s`.
    pub fn relocation(&self, s: u16, told: Option<Relocation>) -> Option<Relocation>
        ensures { result ≡ seen_relocation self.now s told }
    {
        self.left(s, told).map(|x| self.aim(x))
    }

    // Added root `j`.
    fn added_root(&self, j: u16) -> Option<u16>
        ensures { result ≡ added_root self.now j }
    {
        self.roots
            .get(usize::from(j))
            .map(|s| self.slots.number(*s))
    }

    // Root `j`, where the graph below has `n` roots and answers `told`.
    pub fn root(&self, n: u16, j: u16, told: Option<u16>) -> Option<u16>
        ensures { result ≡ seen_root self.now n j told }
    {
        match told {
            Some(s) => Some(self.slots.number(s)),
            None => self.added_root(j.checked_sub(n)?),
        }
    }

    // The place of section `s`, where the graph below has `n` sections and `there` says whether it is present there.
    pub fn place(&self, n: u16, there: bool, s: u16) -> Result<Place, Fault>
        ensures { result ≡ placed self.now n there s }
    {
        if s >= n {
            return Err(refused(Kind::NoSection, u64::from(s)));
        }
        Ok(if there {
            self.slots.found(s)
        } else {
            Place::Absent
        })
    }

    // Whether a bind is refused, and why; `there` says whether the section is present.
    pub fn check_bind(&self, there: bool, name: u16, section: u16) -> Result<(), Fault>
        ensures { result ≡ ok_unless (bind_refused self.now there name section) tt }
    {
        self.check_pin(there, section)?;
        if self.is_bound(name) {
            return Err(refused(Kind::Bound, u64::from(name)));
        }
        if self.binds.is_full() {
            return Err(refused(Kind::Full, 0));
        }
        Ok(())
    }

    // Whether a pin is refused, and why.
    pub fn check_pin(&self, there: bool, section: u16) -> Result<(), Fault>
        ensures { result ≡ ok_unless (pin_refused self.now there section) tt }
    {
        if self.closed {
            return Err(refused(Kind::Closed, 0));
        }
        if !there {
            return Err(refused(Kind::NoSection, u64::from(section)));
        }
        Ok(())
    }

    // Whether a root is refused, and why; the graph below has `n` roots.
    pub fn check_root(&self, there: bool, n: u16, section: u16) -> Result<(), Fault>
        ensures { result ≡ ok_unless (root_refused self.now there n section) tt }
    {
        self.check_pin(there, section)?;
        if self.roots.is_full() || usize::from(n) + self.roots.len() >= 4096 {
            return Err(refused(Kind::Full, 0));
        }
        Ok(())
    }
}
