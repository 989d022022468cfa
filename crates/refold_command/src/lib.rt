// The program `refold` as a function, so that it is run on more than one input: a section table from standard input is swept and folded,
// and its table is printed. A refusal is printed as an F row, with status 1.

#![tactic(auto)]

use refolding::{Failure, refold};
use std::io;
use std::io::{Read, Write};
use std::process::ExitCode;

// The text on standard input, but for what stands behind the first byte too many.
fn load(rt: &HostRuntime) -> io::Result<Vec<u8>> {
    let mut text = Vec::new(rt.alloc());
    rt.stdin().take(65537).read_to_end(&mut text)?;
    Ok(text)
}

pub fn refold_input(rt: &HostRuntime) -> anyhow::Result<ExitCode> {
    let (text, status) = match refold(rt.alloc(), load(rt)?) {
        Ok(table) => (table, ExitCode::SUCCESS),
        Err(Failure::Refused(row)) => (row, ExitCode::FAILURE),
        Err(Failure::Memory(error)) => return Err(error.into()),
    };
    rt.stdout().write_all(text.as_slice())?;
    Ok(status)
}
