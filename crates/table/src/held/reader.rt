// The calls of the reader, and its questions: it is a section graph.
ghost use Rattle.std.specs.Prelude.{◌≡◌, None, drop, slice_index_or};
ghost use Rattle.std.specs.Option.{option_map};
ghost use Rattle.fault.specs.Refusal.{ok_unless};
ghost use Rattle.model.specs.Graph.{Graph, empty, count_of, root_count_of};
ghost use Rattle.graph.specs.Bytes.{bytes_of};
ghost use Rattle.layout.specs.Reading.{fault_of};
ghost use Rattle.layout.specs.Verdict.{Verdict};
ghost use Rattle.table.specs.Held.{examined};
ghost use Rattle.table.specs.Notes.{starts_in};
ghost use Rattle.table.specs.Places.{byte_rows};
ghost use Rattle.table.specs.Meaning.{text_held, graph_held, text_after};
ghost use Rattle.table.specs.Answering.{valid_held};

use super::Table;
use crate::places::{Counts, NO_BYTES, SectionRows, root_in, told_counts};
use crate::scan::{Starts, check_targets, scan};
use fault::Fault;
use graph::SectionGraph;
use model::{Record, Relocation};
use std::alloc::Global;

// The notes on a text that is accepted, or its refusal.
fn examine(text: &[u8]) -> Result<Starts, Fault>
    ensures { starts_in result ≡ examined text.now }
{
    let starts = scan(text)?;
    check_targets(text, &starts)?;
    Ok(starts)
}

impl Table {
    // A reader that holds no table yet: the empty section graph.
    pub fn new(heap: Global) -> Table
        ensures { graph_held result ≡ empty }
    {
        Table {
            text: Vec::new(heap),
            starts: Starts::none(),
        }
    }

    // Reads a table. The text is moved in and kept as it is; a text that is refused leaves the reader as it was.
    pub fn read(&mut self, text: Vec<u8>) -> Result<(), Fault>
        ensures answer { result ≡ ok_unless (fault_of text.items) tt }
        ensures holds { text_held self.new ≡ text_after (fault_of text.items) text.items (text_held self.old) }
        ensures verdict { Verdict text.items }
    {
        let starts = examine(text.as_slice())?;
        self.text = text;
        self.starts = starts;
        Ok(())
    }

    // The text that was accepted last.
    pub fn text(&self) -> &[u8]
        ensures { result.now ≡ text_held self.now }
    {
        self.text.as_slice()
    }

    // How many sections and roots the table tells.
    #[tactic(auto, using(crate::specs::Answering::count_held, crate::specs::Answering::roots_held))]
    fn counts(&self) -> Counts
        ensures sections { result.sections ≡ count_of (graph_held self.now) }
        ensures roots { result.roots ≡ root_count_of (graph_held self.now) }
    {
        told_counts(self.text())
    }

    // The rows of section `s`.
    fn rows(&self, s: u16) -> Option<SectionRows<'_>>
        ensures { option_map (λ r. r.text.now) result ≡ option_map (λ p. drop p (text_held self.now)) (slice_index_or self.now.starts.places s None) }
    {
        let at = self.starts.of(s)?;
        Some(SectionRows::at(self.text.as_slice(), at))
    }

    // The rows of the bytes of section `s`; an absent one has none.
    #[tactic(auto, using(crate::specs::Answering::byte_rows_some))]
    fn byte_rows(&self, s: u16) -> &[u8]
        ensures { result.now ≡ byte_rows (bytes_of (graph_held self.now) s) }
    {
        let Some(rows) = self.rows(s) else {
            return &[];
        };
        rows.byte_rows()
    }
}

impl SectionGraph for Table {
    ghost graph = { graph_held };

    ghost valid = { λ x. valid_held x.text.items x.starts.places x.fit };

    fn count(&self) -> u16 {
        self.counts().sections
    }

    #[tactic(auto, using(crate::specs::Answering::record_some))]
    fn record_of(&self, s: u16) -> Option<Record> {
        self.rows(s)?.record()
    }

    #[tactic(auto, using(crate::specs::Answering::byte_some, crate::specs::Answering::byte_none))]
    fn byte(&self, s: u16, i: u16) -> Option<u8> {
        self.rows(s)?.byte(i)
    }

    #[tactic(auto, using(crate::specs::Answering::tells_some))]
    fn byte_digest(&self, s: u16) -> u64 {
        let Some(rows) = self.rows(s) else {
            return NO_BYTES;
        };
        rows.digest()
    }

    // The same bytes have the same rows, and other bytes have others.
    #[tactic(auto, using(crate::specs::Answering::rows_decide_held))]
    fn same_bytes(&self, s: u16, t: u16) -> bool {
        self.byte_rows(s) == self.byte_rows(t)
    }

    #[tactic(auto, using(crate::specs::Answering::relocation_some, crate::specs::Answering::relocation_none))]
    fn relocation(&self, s: u16, j: u16) -> Option<Relocation> {
        self.rows(s)?.relocation(j)
    }

    fn root_count(&self) -> u16 {
        self.counts().roots
    }

    #[tactic(auto, using(crate::specs::Answering::root_held))]
    fn root(&self, j: u16) -> Option<u16> {
        root_in(self.text(), j)
    }
}
