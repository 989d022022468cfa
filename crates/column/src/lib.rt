// Numbers in columns: right-justified, with blanks before them and a minus directly before the digits. The definitions,
// and the two theorems that make a column exact, stand in specs/Columns.antt.

#![tactic(auto)]

ghost use Rattle.std.specs.Prelude.{◌≡◌, ◌==◌, ◌^◌, ◌<◌, ◌≤◌, ◌↔◌, not, length, pos, Some, decimal, unwrap_or, position, IfSome, IsOk, OnOk, OnErr};
ghost use Rattle.std.specs.Fmt.{signed_decimal};
ghost use Rattle.column.specs.Columns.{justified, column, signed, gathered, natural, negative, number, read_column, column_of, ReadBack, OnlyWritten};

use itoa::write_digits;

// What is written in a column is read again, and nothing else is read.
pub fn exact()
    ensures back { ReadBack }
    ensures only { OnlyWritten }
{}

// The number that a column of at most 18 bytes holds.
pub fn read_column(text: &[u8]) -> Option<i64>
    ensures { result ≡ column_of text.now }
{
    if text.len() > 18 {
        None
    } else {
        read_short(text)
    }
}

// The number that a column holds, which is short enough for 64 bits. The bound stands again at each function that is
// handed a part of the text: a type for short texts would have each part shown short again.
fn read_short(text: &[u8]) -> Option<i64>
    requires { length text.now ≤ 18 }
    ensures { result ≡ read_column text.now }
{
    let start = blanks(text);
    read_number(&text[start..])
}

// Where the number begins: past the blanks.
fn blanks(text: &[u8]) -> usize
    ensures within { result ≤ length text.now }
    ensures start { result ≡ unwrap_or (position (λ b. not (b == 32)) text.now) (length text.now) }
{
    text.iter().position(|b| *b != b' ').unwrap_or(text.len())
}

// The number that the whole text is.
fn read_number(text: &[u8]) -> Option<i64>
    requires { length text.now ≤ 18 }
    ensures { result ≡ number text.now }
{
    match text {
        [b'-', size @ ..] => negated(read_natural(size)?),
        _ => Some(read_natural(text)? as i64),
    }
}

// The number below 0 of a size that is not 0.
fn negated(size: u64) -> Option<i64>
    requires { size < 2 ^ 63 }
    ensures { result ≡ negative (Some size) }
{
    (size > 0).then_some(-(size as i64))
}

// The number that the whole text is in digits, with no leading zero.
fn read_natural(text: &[u8]) -> Option<u64>
    requires { length text.now ≤ 18 }
    ensures value { result ≡ natural text.now }
    ensures small { IfSome result (λ n. n < 10 ^ 18) }
{
    match text {
        [] | [b'0', _, ..] => None,
        _ => gather(text),
    }
}

// The number that the digits write.
fn gather(text: &[u8]) -> Option<u64>
    requires { length text.now ≤ 18 }
    ensures value { result ≡ gathered 0 text.now }
    ensures small { IfSome result (λ n. n < 10 ^ 18) }
{
    text.iter().try_fold(0u64, |sum, d| {
        let digit = char::from(*d).to_digit(10)?;
        Some(sum * 10 + u64::from(digit))
    })
}

// How many digits a number is written with.
#[tactic(auto, using(crate::proofs::Writing::length_by_logarithm))]
pub fn digits(value: u64) -> usize
    ensures long { result ≡ length (decimal value) }
    ensures few { result ≤ 20 }
{
    value.checked_ilog10().unwrap_or(0) as usize + 1
}

// Why a number is not written: its text is longer than its column.
#[derive(Clone, Copy, PartialEq, Eq, Debug)]
pub struct TooNarrow;

// Fills the slice with the number right-justified where its digits fit, and else leaves it.
pub fn write_natural(value: u64, out: &mut [u8]) -> Result<(), TooNarrow>
    ensures fits { IsOk result ↔ (length (decimal value) ≤ length out.old) }
    ensures filled { OnOk result (out.new ≡ column (length out.old) (pos value)) }
    ensures kept { OnErr result (out.new ≡ out.old) }
{
    write_signed(false, value, out)
}

// Fills the slice with the number right-justified where it fits, and else leaves it.
pub fn write_column(value: i64, out: &mut [u8]) -> Result<(), TooNarrow>
    ensures fits { IsOk result ↔ (length (signed_decimal value) ≤ length out.old) }
    ensures filled { OnOk result (out.new ≡ column (length out.old) value) }
    ensures kept { OnErr result (out.new ≡ out.old) }
{
    write_signed(value < 0, value.unsigned_abs(), out)
}

// Fills the slice with the digits of a size, and with a minus before them or none, right-justified where they fit, and
// else leaves it. The minus stands beside the size, since digits are written of a size.
fn write_signed(minus: bool, size: u64, out: &mut [u8]) -> Result<(), TooNarrow>
    ensures fits { IsOk result ↔ (length (signed minus size) ≤ length out.old) }
    ensures filled { OnOk result (out.new ≡ justified (length out.old) (signed minus size)) }
    ensures kept { OnErr result (out.new ≡ out.old) }
{
    let needed = digits(size) + usize::from(minus);
    if needed > out.len() {
        return Err(TooNarrow);
    }
    fill_signed(minus, size, out);
    Ok(())
}

// Fills the slice with the digits, and a minus or none, which fit, right-justified.
fn fill_signed(minus: bool, size: u64, out: &mut [u8])
    requires { length (signed minus size) ≤ length out.old }
    ensures { out.new ≡ justified (length out.old) (signed minus size) }
{
    let end = out.len();
    let mut start = write_digits(size, out, end);
    if minus {
        start -= 1;
        out[start] = b'-';
    }
    out[..start].fill(b' ');
}

#[cfg(test)]
mod tests {
    use super::{read_column, write_column};

    #[test]
    fn reads(rt: HostRuntime) {
        assert_eq!(rt; read_column(b"   0"), Some(0));
        assert_eq!(rt; read_column(b" -17"), Some(-17));
        assert_eq!(rt;
            read_column(b"999999999999999999"),
            Some(999999999999999999)
        );
    }

    #[test]
    fn refuses(rt: HostRuntime) {
        assert_eq!(rt; read_column(b""), None);
        assert_eq!(rt; read_column(b"    "), None);
        assert_eq!(rt; read_column(b"  -0"), None);
        assert_eq!(rt; read_column(b"  07"), None);
        assert_eq!(rt; read_column(b"   -"), None);
        assert_eq!(rt; read_column(b"  7 "), None);
        assert_eq!(rt; read_column(b"                  7"), None);
    }

    #[test]
    fn writes(rt: HostRuntime) {
        let mut wide = [b'x'; 20];
        assert!(rt; write_column(i64::MIN, &mut wide).is_ok());
        assert_eq!(rt; wide, *b"-9223372036854775808");
        let mut narrow = [b'x'; 4];
        assert!(rt; write_column(-2048, &mut narrow).is_err());
        assert_eq!(rt; narrow, *b"xxxx");
        assert!(rt; write_column(0, &mut narrow).is_ok());
        assert_eq!(rt; narrow, *b"   0");
    }
}
