// A text written over the front of a buffer piece by piece, each behind the last.

#![tactic(auto)]

ghost use Rattle.std.specs.Prelude.{ℕ, ◌<◌, List};
ghost use Rattle.std.specs.Borrow.{MutBor};
ghost use Rattle.pieces.specs.Writes.{Writes, pieces, EachWrites};

use fault::Fault;

// Writes the pieces of a text, each behind the last. A `for`: the writers take the part where the last row ended.
#[tactic(auto, using(crate::proofs::Writing::none_written))]
pub fn write_each<F: Fn(u16, &mut [u8]) -> Result<usize, Fault>>(
    count: u16,
    out: &mut [u8],
    write: F,
) -> Result<usize, Fault>
    requires callable { (k : ℕ) (part : MutBor (List ℕ)) → k < count → F.pre write k part }
    requires writes { (piece : ℕ → List ℕ) × EachWrites (F.post write) count piece }
    ensures { (piece : ℕ → List ℕ) → EachWrites (F.post write) count piece → Writes (pieces piece count) out.old out.new result }
{
    let mut at = 0;
    for k in 0..count {
        at += write(k, &mut out[at..])?;
    }
    Ok(at)
}
