// The program `refold` on a text that is one byte too long.

#![tactic(auto)]

use refold_command::refold_input;
use std::process::ExitCode;

fn main(rt: HostRuntime) -> anyhow::Result<ExitCode> {
    refold_input(&rt)
}
