// The interface of everything that holds sections: object files, section tables and piles.

#![tactic(auto)]

ghost use Rattle.std.specs.Prelude.{◌≡◌, Decides};
ghost use Rattle.model.specs.Graph.{Graph, count_of, record_of, byte_of, relocation_of, root_count_of, root_of};
ghost use Rattle.model.specs.Laws.{Valid};
ghost use Rattle.graph.specs.Bytes.{bytes_of, mixed, digest, told_size, told_count};

use model::{Record, Relocation};

// A section graph: sections that are numbered from 0, each absent or present, and a list of roots.
//
// A question about a section that is absent or not below the count, or about an index past the end, answers `None`, and
// no other question does. A question changes nothing.
pub trait SectionGraph {
    // the section graph that the value means
    ghost graph: { Self → Graph };

    // How many sections there are, absent ones included.
    fn count(&self) -> u16
        ensures { result ≡ count_of (graph self.now) };

    // What is told of section `s`.
    fn record_of(&self, s: u16) -> Option<Record>
        ensures { result ≡ record_of (graph self.now) s };

    // Byte `i` of section `s`.
    fn byte(&self, s: u16, i: u16) -> Option<u8>
        ensures { result ≡ byte_of (graph self.now) s i };

    // Relocation `j` of section `s`.
    fn relocation(&self, s: u16, j: u16) -> Option<Relocation>
        ensures { result ≡ relocation_of (graph self.now) s j };

    // How many roots there are.
    fn root_count(&self) -> u16
        ensures { result ≡ root_count_of (graph self.now) };

    // Root `j`, the number of a present section.
    fn root(&self, j: u16) -> Option<u16>
        ensures { result ≡ root_of (graph self.now) j };

    // The digest of the bytes of section `s`, an absent one having none. By the questions alone; a reader may give it with work on
    // its own slice. By a loop: a chain proved only by an answer that names its range, and an edit of that is refused in the proof file.
    fn byte_digest(&self, s: u16) -> u64
        ensures { result ≡ digest (bytes_of (graph self.now) s) }
    {
        let mut digest = 14695981039346656037;
        for i in 0..size_told(self.record_of(s)) {
            if let Some(x) = self.byte(s, i) {
                digest = mix(digest, u64::from(x));
            }
        }
        digest
    }

    // Whether sections `s` and `t` have the same bytes, an absent one having none. A reader may give it too. By a loop: three forms of a
    // chain of `all` were tried, and the proof of none closed.
    fn same_bytes(&self, s: u16, t: u16) -> bool
        ensures { Decides result (bytes_of (graph self.now) s ≡ bytes_of (graph self.now) t) }
    {
        let size = size_told(self.record_of(s));
        if size != size_told(self.record_of(t)) {
            return false;
        }
        for i in 0..size {
            if self.byte(s, i) != self.byte(t, i) {
                return false;
            }
        }
        true
    }

    ghost valid: { (x : Self) → Valid (graph x) };
}

// A digest with one more number mixed in.
#[tactic(auto, unfolding(crate::specs::Bytes::mixed))]
pub fn mix(digest: u64, x: u64) -> u64
    ensures { result ≡ mixed digest x }
{
    (digest ^ x).wrapping_mul(1099511628211)
}

// The size that a record tells, 0 of an absent section.
pub fn size_told(told: Option<Record>) -> u16
    ensures { result ≡ told_size told }
{
    told.map_or(0, |x| x.size)
}

// How many relocations a record tells, 0 of an absent section.
pub fn relocations_told(told: Option<Record>) -> u16
    ensures { result ≡ told_count told }
{
    told.map_or(0, |x| x.relocations)
}
