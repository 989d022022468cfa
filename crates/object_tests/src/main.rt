// Reads the objects of data/ and prints what was read as rows, then the verdicts on the small object with each of some
// patches, and at last what damaged objects give, verdicts and names. The output that is expected comes from tools/object_tests.py.

#![tactic(auto)]

use fault::Fault;
use graph::SectionGraph;
use model::{Setting, Target};
use object::Object;
use reading::examine;
use section_names::section_name;
use std::alloc::{AllocError, Global};
use std::fs;

// The bytes of section `s`.
fn bytes_of(heap: Global, o: &Object, s: u16, size: u16) -> Result<Vec<u8>, AllocError> {
    (0..size).filter_map(|i| o.byte(s, i)).collect(heap)
}

// The bytes of section `s`, sixteen to a row.
fn show_bytes(rt: &HostRuntime, o: &Object, s: u16, size: u16) -> anyhow::Result<()> {
    for row in bytes_of(rt.alloc(), o, s, size)?.chunks(16) {
        print!(rt; "B")?;
        for x in row {
            print!(rt; "{x:>4}")?;
        }
        println!(rt)?;
    }
    Ok(())
}

// The relocations of section `s`.
fn show_relocations(rt: &HostRuntime, o: &Object, s: u16, count: u16) -> anyhow::Result<()> {
    for r in (0..count).filter_map(|j| o.relocation(s, j)) {
        let (kind, number) = match r.target {
            Target::Section(t) => (0, t),
            Target::Outside(e) => (1, e),
        };
        println!(rt;
            "R{:>12}{:>12}{kind:>12}{number:>12}{:>12}",
            r.offset, r.kind, r.displacement
        )?;
    }
    Ok(())
}

// The graph of an object as rows.
fn show(rt: &HostRuntime, o: &Object) -> anyhow::Result<()> {
    println!(rt; "H{:>12}{:>12}", o.count(), o.root_count())?;
    for (s, r) in (0..o.count()).filter_map(|s| Some((s, o.record_of(s)?))) {
        let pinned = u8::from(r.setting == Setting::Pinned);
        println!(rt;
            "S{s:>12}{:>12}{:>12}{:>12}{:>12}{pinned:>12}",
            r.flags, r.alignment, r.size, r.relocations
        )?;
        show_bytes(rt, o, s, r.size)?;
        show_relocations(rt, o, s, r.relocations)?;
    }
    for t in (0..o.root_count()).filter_map(|j| o.root(j)) {
        println!(rt; "T{t:>12}")?;
    }
    let present = (0..o.count()).filter(|s| o.record_of(*s).is_some()).count();
    println!(rt; "E{present:>12}")?;
    Ok(())
}

// The names of the sections of a file, as rows.
fn show_names(rt: &HostRuntime, b: &[u8], count: u16) -> anyhow::Result<()> {
    for (s, name) in (0..count).filter_map(|s| Some((s, section_name(b, s)?))) {
        println!(rt; "N{s:>12} {}", name.escape_ascii())?;
    }
    Ok(())
}

// A refusal as a row.
fn show_fault(rt: &HostRuntime, f: Fault) -> anyhow::Result<()> {
    let (kind, layer) = (u8::from(f.kind), u8::from(f.layer));
    println!(rt; "F{kind:>12}{:>12}{layer:>12}", f.place)?;
    Ok(())
}

// Reads a file and shows it.
fn read(rt: &HostRuntime, name: &str) -> anyhow::Result<()> {
    println!(rt; "{name}")?;
    let mut o = Object::new(rt.alloc());
    let file = fs::read(rt, name)?;
    let copy = file.clone()?;
    match o.read(file) {
        Ok(()) => {
            show(rt, &o)?;
            show_names(rt, copy.as_slice(), o.count())
        }
        Err(f) => show_fault(rt, f),
    }
}

// A byte at a place of a file.
#[derive(Clone, Copy)]
struct Change {
    place: usize,
    byte: u8,
}

// The number that four bytes begin with.
fn told_number(told: &[u8]) -> Option<usize> {
    Some(u32::from_le_bytes(*told.first_chunk()?) as usize)
}

// A change as five bytes tell it, four for the place.
fn told_change(told: &[u8]) -> Option<Change> {
    Some(Change {
        place: told_number(told)?,
        byte: *told.get(4)?,
    })
}

// A copy of `b` of some length, cut or with zeros behind, with bytes at places.
fn patched(
    heap: Global,
    b: &[u8],
    length: usize,
    changes: &[Change],
) -> Result<Vec<u8>, AllocError> {
    let mut copy = b[..b.len().min(length)].to_vec(heap)?;
    copy.resize(length, 0)?;
    for change in changes {
        if let Some(old) = copy.get_mut(change.place) {
            *old = change.byte;
        }
    }
    Ok(copy)
}

// The verdict on one patched object after another. A patch is the length of the object, a count, and so many places with a
// byte: so a few bytes tell of an object at the limits.
fn patches(rt: &HostRuntime, b: &[u8], list: &[u8]) -> anyhow::Result<()> {
    let mut rest = list;
    while let Some((head, after)) = rest.split_at_checked(5)
        && let Some(length) = told_number(head)
        && let Some((changes, next)) = after.split_at_checked(5 * usize::from(head[4]))
    {
        let told: Vec<Change> = changes
            .chunks(5)
            .filter_map(told_change)
            .collect(rt.alloc())?;
        match examine(patched(rt.alloc(), b, length, told.as_slice())?.as_slice()) {
            Ok(_) => println!(rt; "accepted")?,
            Err(f) => show_fault(rt, f)?,
        }
        rest = next;
    }
    Ok(())
}

// How many objects were accepted so far, or how many names were found, and a digest of the verdicts or the names.
#[derive(Clone, Copy, Default)]
struct Tally {
    good: u32,
    digest: u32,
}

impl Tally {
    fn mix(&mut self, x: u32) {
        self.digest = self.digest.wrapping_mul(31).wrapping_add(x);
    }

    // One verdict more.
    fn add_verdict(&mut self, b: &[u8]) {
        match examine(b) {
            Ok(_) => {
                self.good = self.good.wrapping_add(1);
                self.mix(0);
            }
            Err(f) => {
                let place = (f.place % 4294967296) as u32;
                let numbers = u32::from(u8::from(f.kind)) * 7 + u32::from(u8::from(f.layer)) + 1;
                self.mix(place.wrapping_mul(3).wrapping_add(numbers));
            }
        }
    }

    // The names of the first sections more, of a file that may be no object.
    fn add_names(&mut self, b: &[u8]) {
        for s in 0..16 {
            self.mix(0);
            if let Some(name) = section_name(b, s) {
                self.good = self.good.wrapping_add(1);
                for x in name {
                    self.mix(u32::from(*x) + 1);
                }
            }
        }
    }
}

// Verdicts and names of objects that are damaged.
#[derive(Clone, Copy, Default)]
struct Damage {
    verdicts: Tally,
    names: Tally,
}

impl Damage {
    fn add(&mut self, b: &[u8]) {
        self.verdicts.add_verdict(b);
        self.names.add_names(b);
    }
}

// Each byte set to 0, to 255 and flipped, and the object cut before it.
fn sweep(rt: &HostRuntime, b: &[u8]) -> anyhow::Result<()> {
    let mut damage = Damage::default();
    for (place, x) in b.iter().enumerate() {
        for byte in [0, 255, *x ^ 255] {
            let changed = patched(rt.alloc(), b, b.len(), &[Change { place, byte }])?;
            damage.add(changed.as_slice());
        }
        damage.add(&b[..place]);
    }
    let Damage { verdicts, names } = damage;
    println!(rt; "swept{:>12}{:>12}", verdicts.good, verdicts.digest)?;
    println!(rt; "named{:>12}{:>12}", names.good, names.digest)?;
    Ok(())
}

fn main(rt: HostRuntime) -> anyhow::Result<()> {
    for name in ["gcc.o", "clang_addrsig.o", "clang_plain.o", "small.o"] {
        read(&rt, name)?;
    }
    let small = fs::read(&rt, "small.o")?;
    let list = fs::read(&rt, "patches")?;
    patches(&rt, small.as_slice(), list.as_slice())?;
    sweep(&rt, small.as_slice())?;
    sweep(&rt, fs::read(&rt, "clang_addrsig.o")?.as_slice())
}
