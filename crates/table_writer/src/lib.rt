// The table of any section graph: how long it is, and its text written into a buffer.

#![tactic(auto)]

ghost use Rattle.std.specs.Prelude.{◌≡◌, ◌+◌, ◌*◌, ◌<◌, ◌≤◌, ◌++◌, length, Some};
ghost use Rattle.model.specs.Graph.{section_of, record_of, relocation_of, root_of, root_count_of};
ghost use Rattle.row_writer.specs.Writing.{wrote, put};
ghost use Rattle.layout.specs.Layout.{text_of, present_count};
ghost use Rattle.graph.specs.Bytes.{bytes_of, relocations_in};
ghost use Rattle.table_writer.specs.Texts.{bytes_text, relocations_text, section_text, sections_text, roots_text, byte_row, relocation_row, root_row};
ghost use Rattle.pieces.specs.Writes.{Writes, Written};

use fault::{Fault, Kind, Layer};
use graph::SectionGraph;
use layout::{END_ROW, HEADER_ROW, ROOT_ROW, relocation_place};
use model::Record;
use pieces::write_each;
use row_writer::{
    write_bytes, write_end, write_header, write_relocation, write_root, write_section,
};

// How long the rows of all sections are: but for the first row, those of the roots and the last, that is the table.
fn sections_length<G: SectionGraph>(graph: &G) -> usize
    ensures table { result + (14 * root_count_of (G.SectionGraph.graph graph.now) + 40) ≡ length (text_of (G.SectionGraph.graph graph.now)) }
    ensures few { result ≤ 5120000000 }
{
    (0..graph.count())
        .map(|s| graph
            .record_of(s)
            .map_or(0, |x| relocation_place(x.size, x.relocations)))
        .sum()
}

// How long the table of a section graph is. Neither bytes nor relocations are asked for.
pub fn table_length<G: SectionGraph>(graph: &G) -> usize
    ensures { result ≡ length (text_of (G.SectionGraph.graph graph.now)) }
{
    let roots = usize::from(graph.root_count());
    HEADER_ROW + sections_length(graph) + ROOT_ROW * roots + END_ROW
}

// How many sections are present.
fn present<G: SectionGraph>(graph: &G) -> u16
    ensures { result ≡ present_count (G.SectionGraph.graph graph.now).sections }
{
    (0..graph.count())
        .map(|s| u16::from(graph.record_of(s).is_some()))
        .sum()
}

// A present section whose rows are written, and what is told of it.
#[derive(Drop)]
struct Section<'a, G: SectionGraph> {
    graph: &'a G,
    number: u16,
    info: Record,
    ghost is_told: { record_of (G.SectionGraph.graph graph.now) number ≡ Some info },
}

impl<'a, G: SectionGraph> Section<'a, G> {
    // Writes the row of the sixteen bytes from `16 * k` on, or of those that are left. The loop asks for no byte past the last, and where
    // a graph's `byte` is inlined the compiler may take out of it what the graph looks up for the section. Out of `array::from_fn`, with
    // a test in it for the end of the section, it did not.
    fn write_byte_row(&self, k: u16, out: &mut [u8]) -> Result<usize, Fault>
        requires { 16 * k < self.now.info.size }
        ensures { Writes (byte_row (bytes_of (G.SectionGraph.graph self.now.graph.now) self.now.number) k) out.old out.new result }
    {
        let start = 16 * k;
        let count = (self.info.size - start).min(16);
        let mut row = [0u8; 16];
        for i in 0..count {
            row[usize::from(i)] = self.graph.byte(self.number, start + i).unwrap_or(0);
        }
        write_bytes(&row[..usize::from(count)], out)
    }

    // Writes the rows of the bytes.
    fn write_byte_rows(&self, out: &mut [u8]) -> Result<usize, Fault>
        ensures { Writes (bytes_text (bytes_of (G.SectionGraph.graph self.now.graph.now) self.now.number)) out.old out.new result }
    {
        write_each(
            self.info.size.div_ceil(16),
            out,
            |k: u16, part: &mut [u8]| { self.write_byte_row(k, part) },
        )
    }

    // Writes the row of relocation `j`. It and `write_root_row` are two: each has its own question and its own writer.
    fn write_relocation_row(&self, j: u16, out: &mut [u8]) -> Result<usize, Fault>
        ensures { Writes (relocation_row (relocation_of (G.SectionGraph.graph self.now.graph.now) self.now.number j)) out.old out.new result }
    {
        let Some(relocation) = self.graph.relocation(self.number, j) else {
            return Ok(0);
        };
        write_relocation(&relocation, out)
    }

    // Writes the rows of the relocations.
    fn write_relocation_rows(&self, out: &mut [u8]) -> Result<usize, Fault>
        ensures { Writes (relocations_text (relocations_in (section_of (G.SectionGraph.graph self.now.graph.now) self.now.number))) out.old out.new result }
    {
        write_each(self.info.relocations, out, |j: u16, part: &mut [u8]| {
            self.write_relocation_row(j, part)
        })
    }

    // Writes all its rows.
    fn write(&self, out: &mut [u8]) -> Result<usize, Fault>
        ensures { Writes (section_text self.now.number (section_of (G.SectionGraph.graph self.now.graph.now) self.now.number)) out.old out.new result }
    {
        let mut at = write_section(self.number, &self.info, out)?;
        at += self.write_byte_rows(&mut out[at..])?;
        at += self.write_relocation_rows(&mut out[at..])?;
        Ok(at)
    }
}

// Writes the rows of section `s`, if it is present.
fn write_section_rows<G: SectionGraph>(graph: &G, s: u16, out: &mut [u8]) -> Result<usize, Fault>
    ensures { Writes (section_text s (section_of (G.SectionGraph.graph graph.now) s)) out.old out.new result }
{
    let Some(info) = graph.record_of(s) else {
        return Ok(0);
    };
    Section {
        graph,
        number: s,
        info,
    }
    .write(out)
}

// Writes the rows of the present sections.
fn write_sections<G: SectionGraph>(graph: &G, out: &mut [u8]) -> Result<usize, Fault>
    ensures { Writes (sections_text 0 (G.SectionGraph.graph graph.now).sections) out.old out.new result }
{
    write_each(graph.count(), out, |s: u16, part: &mut [u8]| {
        write_section_rows(graph, s, part)
    })
}

// Writes the row of root `j`.
fn write_root_row<G: SectionGraph>(graph: &G, j: u16, out: &mut [u8]) -> Result<usize, Fault>
    ensures { Writes (root_row (root_of (G.SectionGraph.graph graph.now) j)) out.old out.new result }
{
    let Some(number) = graph.root(j) else {
        return Ok(0);
    };
    write_root(number, out)
}

// Writes the rows of the roots.
fn write_roots<G: SectionGraph>(graph: &G, out: &mut [u8]) -> Result<usize, Fault>
    ensures { Writes (roots_text (G.SectionGraph.graph graph.now).roots) out.old out.new result }
{
    write_each(graph.root_count(), out, |j: u16, part: &mut [u8]| {
        write_root_row(graph, j, part)
    })
}

// Writes the rows of a table between its first and its last: those of the sections, then those of the roots.
#[tactic(auto, using(pieces::proofs::Writing::first_within, pieces::proofs::Writing::both_within, pieces::proofs::Writing::both_done, pieces::proofs::Writing::second_stopped, pieces::proofs::Writing::first_stopped))]
fn write_body<G: SectionGraph>(graph: &G, out: &mut [u8]) -> Result<usize, Fault>
    ensures { Written (sections_text 0 (G.SectionGraph.graph graph.now).sections ++ roots_text (G.SectionGraph.graph graph.now).roots) out.old out.new result }
{
    let mut at = write_sections(graph, out)?;
    at += write_roots(graph, &mut out[at..])?;
    Ok(at)
}

// Writes the rows of a table.
fn write_rows<G: SectionGraph>(graph: &G, out: &mut [u8]) -> Result<usize, Fault>
    ensures { Writes (text_of (G.SectionGraph.graph graph.now)) out.old out.new result }
{
    let mut at = write_header(graph.count(), graph.root_count(), out)?;
    at += write_body(graph, &mut out[at..])?;
    at += write_end(present(graph), &mut out[at..])?;
    Ok(at)
}

// Writes the table of a section graph over the front of the buffer, and answers how long it is. What stands behind it in
// the buffer stays. A buffer that is too short is refused with the length needed before anything is written.
#[tactic(auto, using(pieces::proofs::Writing::refused_short, pieces::proofs::Writing::kept_short, pieces::proofs::Writing::answered, pieces::proofs::Writing::stands))]
pub fn write_table<G: SectionGraph>(graph: &G, out: &mut [u8]) -> Result<usize, Fault>
    ensures answer { result ≡ wrote (text_of (G.SectionGraph.graph graph.now)) out.old }
    ensures text { out.new ≡ put (text_of (G.SectionGraph.graph graph.now)) out.old }
{
    let needed = table_length(graph);
    // the test that the writer of a row makes of its row: a function for the two would be no shorter
    if out.len() < needed {
        return Err(Fault::new(Kind::Small, needed as u64, Layer::Output));
    }
    write_rows(graph, out)
}
