// Reads a section table from standard input, sweeps and folds it, and prints its table. A refusal is printed as an F row, with status 1.

#![tactic(auto)]

use refold_command::refold_input;
use std::process::ExitCode;

fn main(rt: HostRuntime) -> anyhow::Result<ExitCode> {
    refold_input(&rt)
}
