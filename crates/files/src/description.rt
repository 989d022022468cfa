// What is said of a section graph.
use graph::{SectionGraph, relocations_told};
use std::fmt;
use summary::{Summary, summarize};

// Some outside names, with a bit for each that there may be: a set of the library, which looks for a place at each relocation, took
// most of the time.
#[derive(Drop)]
struct Names {
    words: [u64; 1024],
}

impl Names {
    fn insert(&mut self, name: u16) {
        self.words[usize::from(name / 64)] |= 1 << (name % 64);
    }

    fn count(&self) -> u32 {
        self.words.iter().fold(0u32, |count, word| count.saturating_add(word.count_ones()))
    }
}

// How many outside names are used.
fn outside_names<G: SectionGraph>(graph: &G) -> u32 {
    let mut names = Names { words: [0; 1024] };
    for s in 0..graph.count() {
        let relocations = 0..relocations_told(graph.record_of(s));
        for name in relocations.filter_map(|j| graph.relocation(s, j)?.target.outside()) {
            names.insert(name);
        }
    }
    names.count()
}

// What a section graph holds; it prints as lines.
#[derive(Clone, Copy)]
pub struct Description {
    summary: Summary,
    outside_names: u32,
}

impl fmt::Display for Description {
    fn fmt<W: fmt::Write>(&self, f: &mut fmt::Formatter<W>) -> fmt::Result {
        let told = self.summary;
        let foldable = told.present.saturating_sub(told.pinned);
        writeln!(
            f,
            "sections       {}, {} present",
            told.sections, told.present
        )?;
        writeln!(
            f,
            "settings       {} pinned, {foldable} foldable",
            told.pinned
        )?;
        writeln!(f, "bytes          {}", told.bytes)?;
        writeln!(f, "relocations    {}", told.relocations)?;
        writeln!(f, "outside names  {}", self.outside_names)?;
        write!(f, "roots          {}", told.roots)
    }
}

pub fn describe<G: SectionGraph>(graph: &G) -> Description {
    Description {
        summary: summarize(graph),
        outside_names: outside_names(graph),
    }
}
