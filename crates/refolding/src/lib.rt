// A section table swept and folded: what is printed of it.

#![tactic(auto)]

ghost use Rattle.std.specs.Prelude.{◌≡◌, IfOk, IfErr};
ghost use Rattle.layout.specs.Layout.{text_of};
ghost use Rattle.layout.specs.Reading.{graph_of};
ghost use Rattle.table.specs.Meaning.{graph_held};
ghost use Rattle.refolding.specs.Printed.{too_long, refolded, IsFaultRow, IsTable, IsRefusal};
ghost use Rattle.refolding.specs.Reduced.{Reduced};

use calls::Call;
use fault::{Fault, Kind, Layer};
use pile::run;
use std::alloc::{AllocError, Global};
use table::Table;
use texts::{fault_text, table_text};

// Why no table is answered.
#[derive(Drop)]
pub enum Failure {
    // the text is refused, and this is the row that tells it
    Refused(Vec<u8>),
    // want of memory
    Memory(AllocError),
}

// The refusal of a text that is too long.
fn too_long() -> Fault
    ensures { result ≡ too_long }
{
    Fault::new(Kind::Oversize, 65536, Layer::Output)
}

// What is answered of a text that is refused.
fn refused(heap: Global, fault: &Fault) -> Failure
    ensures { IsFaultRow fault.now result }
{
    fault_text(heap, fault).map_or_else(Failure::Memory, Failure::Refused)
}

// The table of a table that was read, swept and folded.
fn accepted(heap: Global, table: Table) -> Result<Vec<u8>, AllocError>
    ensures { IfOk result (λ v. v.items ≡ text_of (refolded (graph_held table))) }
{
    table_text(heap, &run(table, &[Call::Sweep, Call::Fold]))
}

// Reads a text of at most 65,536 bytes as a section table, sweeps and folds it, and answers its table, or the row of the refusal. The
// table reads back as a graph whose roots unfold as they did, and no graph with such roots has fewer sections.
#[tactic(auto, using(crate::proofs::Reducing::reduces))]
pub fn refold(heap: Global, text: Vec<u8>) -> Result<Vec<u8>, Failure>
    ensures table { IfOk result (IsTable text.items) }
    ensures law { IfOk result (λ v. Reduced (graph_of text.items) v.items) }
    ensures refusal { IfErr result (IsRefusal text.items) }
{
    if text.len() > 65536 {
        return Err(refused(heap, &too_long()));
    }
    let mut table = Table::new(heap);
    table.read(text).map_err(|fault| refused(heap, &fault))?;
    accepted(heap, table).map_err(Failure::Memory)
}
