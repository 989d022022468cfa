// The program folds an object, where a bind makes two sections alike. tests/program_cases.py writes what it is given and what it has to print.

#![tactic(auto)]

use commands::command_line;
use std::process::ExitCode;

fn main(rt: HostRuntime) -> ExitCode {
    command_line(&rt)
}
