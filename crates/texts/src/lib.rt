// The table of a section graph and the row of a refusal, each as a text on the heap.

#![tactic(auto)]

ghost use Rattle.std.specs.Prelude.{◌≡◌, length, IfOk};
ghost use Rattle.row_writer.specs.Writing.{fault_row};
ghost use Rattle.layout.specs.Layout.{text_of};

use fault::Fault;
use graph::SectionGraph;
use row_writer::write_fault;
use std::alloc::{AllocError, Global};
use table_writer::{table_length, write_table};

// The two texts stay two functions: one over the writer needs a clause on what a call of a closure leaves in a buffer, and a definition
// for it, which is longer than the line that each would save.

// The table of a section graph.
#[tactic(auto, using(row_writer::proofs::Puts::wrote_fits, crate::proofs::Filling::filled))]
pub fn table_text<G: SectionGraph>(heap: Global, graph: &G) -> Result<Vec<u8>, AllocError>
    ensures { IfOk result (λ v. v.items ≡ text_of (G.SectionGraph.graph graph.now)) }
{
    let mut text = vec![in heap; 0u8; table_length(graph)]?;
    write_table(graph, text.as_mut_slice()).unwrap();
    Ok(text)
}

// The row of a refusal.
#[tactic(auto, using(row_writer::proofs::Puts::wrote_fits, crate::proofs::Filling::filled))]
pub fn fault_text(heap: Global, fault: &Fault) -> Result<Vec<u8>, AllocError>
    ensures { IfOk result (λ v. v.items ≡ fault_row fault.now) }
{
    let mut text = vec![in heap; 0u8; row_length(fault)]?;
    write_fault(fault, text.as_mut_slice()).unwrap();
    Ok(text)
}

// How long the row of a refusal is: a buffer with no room is refused with the length needed.
fn row_length(fault: &Fault) -> usize
    ensures { result ≡ length (fault_row fault.now) }
{
    write_fault(fault, &mut []).unwrap_or_else(|small| small.place as usize)
}

#[cfg(test)]
mod tests {
    use super::fault_text;
    use fault::{Fault, Kind, Layer};
    use std::alloc::AllocError;

    #[test]
    fn a_refusal_has_its_row(rt: HostRuntime) -> Result<(), AllocError> {
        let full = Fault::new(Kind::Full, 0, Layer::Pile);
        let row = fault_text(rt.alloc(), &full)?;
        assert!(rt; row.as_slice() == b"F          10           0           3\n".as_slice());
        Ok(())
    }

    #[test]
    fn a_row_tells_the_place(rt: HostRuntime) -> Result<(), AllocError> {
        let short = Fault::new(Kind::Short, 4660, Layer::Field);
        let row = fault_text(rt.alloc(), &short)?;
        assert!(rt; row.as_slice() == b"F           1        4660           1\n".as_slice());
        Ok(())
    }

    // No contract says what a refusal prints as.
    #[test]
    fn each_kind_has_its_sentence(rt: HostRuntime) -> Result<(), AllocError> {
        let sentences = [
            (Kind::Short, "a part runs past the end"),
            (Kind::Foreign, "not a file of the kind that is read"),
            (Kind::Oversize, "a count or a length is above its limit"),
            (Kind::Dangling, "a number names no section or symbol"),
            (Kind::Misshapen, "a field has a value that is not allowed"),
            (Kind::BadRow, "a row does not form, or does not belong here"),
            (Kind::Closed, "the pile was swept or folded"),
            (Kind::NoSection, "no such section"),
            (Kind::Bound, "the name was bound before"),
            (Kind::Full, "no room for another"),
            (Kind::Small, "the buffer is too short"),
        ];
        for (kind, sentence) in sentences {
            assert_eq!(rt; format!(in rt.alloc(); "{kind}")?.as_str(), sentence);
        }
        Ok(())
    }

    #[test]
    fn a_refusal_prints(rt: HostRuntime) -> Result<(), AllocError> {
        let bound = Fault::new(Kind::Bound, 7, Layer::Pile);
        assert_eq!(rt;
            format!(in rt.alloc(); "{bound}")?.as_str(),
            "refused with 9 at 7, layer 3: the name was bound before"
        );
        Ok(())
    }
}
