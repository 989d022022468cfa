// Little-endian fields and ULEB128 numbers, read at a place of some bytes.

#![tactic(auto)]

ghost use Rattle.std.specs.Prelude.{◌≡◌, ℕ, ◌+◌, ◌*◌, ◌^◌, ◌<◌, ◌≤◌, List, length, drop, if◌then◌else◌, Some, None, nat_le};
ghost use Rattle.field.specs.Fields.{half, word, long, signed, within};
ghost use Rattle.field.specs.Places.{half-drop, word-drop, long-drop, signed-drop};
ghost use Rattle.field.specs.Uleb.{gathered, none_yet, number_at, misshapen as misshapen_at};
ghost use Rattle.field.specs.Examples.{ExamplesHold};

use fault::{Fault, Kind, Layer};
use std::ops::ControlFlow;

// A number that stands in a file with its lowest byte first.
pub trait Field: Sized {
    // How many bytes it takes, and the number at a place of some bytes.
    ghost size: { ℕ };

    ghost at: { List ℕ → ℕ → Self };

    // The number that some bytes begin with, if there are enough of them.
    fn first(bytes: &[u8]) -> Option<Self>
        ensures { result ≡ (if nat_le size (length bytes.now) then Some (at bytes.now 0) else None) };

    // What stands before the number is nothing to it.
    ghost onward: { (b : List ℕ) (p : ℕ) → at (drop p b) 0 ≡ at b p };
}

// Three impls of one form: no trait of the library has `from_le_bytes` with its width, and a macro may not hold ghost members.
impl Field for u16 {
    ghost size = { 2 };

    ghost at = { half };

    ghost onward = { half-drop };

    #[tactic(auto, using(crate::proofs::Bytes::half_first))]
    fn first(bytes: &[u8]) -> Option<u16> {
        Some(u16::from_le_bytes(*bytes.first_chunk()?))
    }
}

impl Field for u32 {
    ghost size = { 4 };

    ghost at = { word };

    ghost onward = { word-drop };

    #[tactic(auto, using(crate::proofs::Bytes::word_first))]
    fn first(bytes: &[u8]) -> Option<u32> {
        Some(u32::from_le_bytes(*bytes.first_chunk()?))
    }
}

impl Field for u64 {
    ghost size = { 8 };

    ghost at = { long };

    ghost onward = { long-drop };

    #[tactic(auto, using(crate::proofs::Bytes::long_first))]
    fn first(bytes: &[u8]) -> Option<u64> {
        Some(u64::from_le_bytes(*bytes.first_chunk()?))
    }
}

impl Field for i64 {
    ghost size = { 8 };

    ghost at = { signed };

    ghost onward = { signed-drop };

    fn first(bytes: &[u8]) -> Option<i64> {
        u64::first(bytes).map(u64::cast_signed)
    }
}

// The number at `p`.
pub fn read<T: Field>(b: &[u8], p: u64) -> Result<T, Fault>
    ensures { result ≡ within b.now p T.size (T.at b.now p) }
{
    let short = Fault::new(Kind::Short, b.len() as u64, Layer::Field);
    let bytes = b.get(p as usize..).ok_or(short)?;
    T::first(bytes).ok_or(short)
}

// A ULEB128 number and how many bytes it took.
#[derive(Clone, Copy, PartialEq, Eq, Debug, Default)]
pub struct Number {
    pub value: u32,
    pub taken: u8,
}

// The refusal of a ULEB128 number, at its first byte.
pub fn misshapen(first: u64) -> Fault
    ensures { result ≡ misshapen_at first }
{
    Fault::new(Kind::Misshapen, first, Layer::Field)
}

// A number of which no byte is read: `Number::default()`, under a name that says what it is for.
pub fn none_yet() -> Number
    ensures { result ≡ none_yet }
{
    Number::default()
}

// What the digit `d` of a ULEB128 number counts, with `before` digits before it.
#[tactic(auto, using(crate::proofs::Digits::shifted))]
fn digit(d: u8, before: u8) -> u32
    requires few { before ≤ 4 }
    requires small { d < 128 }
    requires last { before ≡ 4 → d < 16 }
    ensures { result ≡ d * 128 ^ before }
{
    u32::from(d) << (7 * before)
}

// The number `n` so far, which began at the place `first`, with the byte `x` more: it goes on, or the byte ends it.
pub fn gather(n: Number, x: u8, first: u64) -> Result<ControlFlow<Number, Number>, Fault>
    ensures { result ≡ gathered n x first }
{
    let before = n.taken.min(4);
    if before == 4 && x >= 16 {
        return Err(misshapen(first));
    }
    let more = Number {
        value: n.value.wrapping_add(digit(x % 128, before)),
        taken: before + 1,
    };
    if x < 128 {
        Ok(ControlFlow::Break(more))
    } else {
        Ok(ControlFlow::Continue(more))
    }
}

// The ULEB128 number that `bytes` begin with; their first has the place `first`.
// A loop: each byte may end it, refuse it or go on; the closure of a `try_fold` has the same three arms, and two more come after it.
pub fn uleb(bytes: &[u8], first: u64) -> Result<Number, Fault>
    ensures { result ≡ number_at bytes.now first }
{
    let mut n = none_yet();
    for x in bytes {
        match gather(n, *x, first)? {
            ControlFlow::Continue(m) => n = m,
            ControlFlow::Break(m) => return Ok(m),
        }
    }
    Err(misshapen(first))
}

// The worked examples of ULEB128 numbers come out as they should.
pub fn examples_hold()
    ensures { ExamplesHold }
{}
