// Reads the ULEB128 numbers in data/cases, which tests/number_cases.py writes, and prints what becomes of each. A case is a line of bytes,
// in hexadecimal, of which the first has the place 7.

#![tactic(auto)]

use field::uleb;
use std::alloc::{AllocError, Global};
use std::fs;

// The bytes of a line.
fn bytes(heap: Global, line: &str) -> Result<Vec<u8>, AllocError> {
    line.split(' ')
        .filter_map(|word| u8::from_str_radix(word, 16).ok())
        .collect(heap)
}

fn main(rt: HostRuntime) -> anyhow::Result<()> {
    let cases = fs::read_to_string(&rt, "cases")?;
    for line in cases.as_str().lines() {
        match uleb(bytes(rt.alloc(), line)?.as_slice(), 7) {
            Ok(number) => println!(rt; "{line}: {}, length {}", number.value, number.taken)?,
            Err(fault) => println!(rt; "{line}: {fault}")?,
        }
    }
    Ok(())
}
