// The program; what it does stands in the crate `commands`.

#![tactic(auto)]

use commands::command_line;
use std::process::ExitCode;

fn main(rt: HostRuntime) -> ExitCode {
    command_line(&rt)
}
