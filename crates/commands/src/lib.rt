// The commands of yilmacrab: they read objects and section tables, say what they hold, sweep and fold them, and write tables and
// maps.

#![tactic(auto)]

mod check;
mod fold;
mod merged;
mod names;
mod run;
mod table_of;

use anyhow::bail;
use options::{read_options, read_shown, read_wanted};
use std::env;
use std::env::{Args, Env};
use std::process::ExitCode;
use std::rt::Files;

const HELP: &str = "usage: yilmacrab check [FILE]
       yilmacrab table [FILE] [-o TABLE]
       yilmacrab fold [FILE] [--bind NAME=SECTION].. [--pin SECTION]..
                 [--root SECTION].. [-o TABLE] [-m MAP]
       yilmacrab run FILE [-o TABLE] [-m MAP]
       yilmacrab merged [MAP] [-n OBJECT]

  check   read an ELF64 object or a section table and say what it holds; a table
          is written again and compared
  table   read an ELF64 object or a section table and write its section table
  fold    read a file, do the binds, pins and roots in the order given, sweep and
          fold, and write the section table of what is left; a call that is
          refused ends it, with nothing written
  run     read a file, and from standard input calls, a line each: bind NAME
          SECTION, pin SECTION, root SECTION, sweep, fold, place SECTION; do them
          in order and print what each answers: ok, refused with number, place
          and layer, the sections present and dropped, the sections present and
          merged and the rounds, or a place; a line that is no call ends it, with
          nothing written; what was read is said on standard error
  merged  read a fold map and print which sections were made into one, a line for
          each: the section that was kept, and those that were folded into it;
          then those that were swept, and how many were kept, merged and swept
  --help  print this

A file is an object if its first byte is 7F hexadecimal, else a table; without
FILE, standard input is read. A table goes to standard output, or to the file
after -o; what is said of it then goes to standard output too, else to standard
error. A fold map, which tells where each section went, goes to the file after
-m. Of run, a table goes to the file after -o alone. Of an object, fold says the
names of the sections that it is called with; merged says those of the object
after -n. A number is written in digits alone, with no zero before the others.
At most 4,096 words are taken after fold, an option with its value as one, and
64 after the other commands. What is refused is told by an F row on standard
output (the refusal's number, its place and its layer) and a sentence on
standard error. The status is 0, or 1 where something was refused or could not
be done.";

fn help(rt: &impl Print) -> anyhow::Result<()> {
    println!(rt; "{HELP}")?;
    Ok(())
}

// The command decides what the words after it mean, so it is looked at first.
fn perform(
    rt: &(impl Files + Input + Print + Eprint + AllocGlobal),
    command: &str,
    words: Args,
) -> anyhow::Result<()> {
    match command {
        "check" => check::check(rt, read_options(words)?),
        "table" => table_of::table(rt, read_options(words)?),
        "fold" => fold::fold(rt, read_wanted(rt.alloc(), words)?),
        "run" => run::run(rt, read_options(words)?),
        "merged" => merged::merged(rt, read_shown(words)?),
        "--help" | "-h" | "help" => help(rt),
        _ => bail!("no command is called {command}; yilmacrab --help lists them"),
    }
}

fn command(rt: &(impl Env + Files + Input + Print + Eprint + AllocGlobal)) -> anyhow::Result<()> {
    let mut words = env::args(rt)?;
    let _program = words.next();
    match words.next() {
        None => help(rt),
        Some(command) => perform(rt, command.as_str(), words),
    }
}

// Does what the words of the program ask for, and answers its status.
pub fn command_line(rt: &(impl Env + Files + Input + Print + Eprint + AllocGlobal)) -> ExitCode {
    match command(rt) {
        Ok(()) => ExitCode::SUCCESS,
        Err(error) => {
            let _ = eprintln!(rt; "yilmacrab: {error}");
            ExitCode::FAILURE
        }
    }
}

#[cfg(test)]
mod tests {
    use super::*;
    use options::Options;

    // What is said of what cannot be done.
    fn said(rt: &HostRuntime, done: anyhow::Result<()>) -> anyhow::Result<String> {
        match done {
            Ok(()) => bail!("it was done"),
            Err(error) => Ok(format!(in rt.alloc(); "{error}")?),
        }
    }

    // The words of this run are none of yilmacrab's: a wrong command is refused before they are read.
    #[test]
    fn a_wrong_command_is_named(rt: HostRuntime) -> anyhow::Result<()> {
        let done = perform(&rt, "chekc", env::args(&rt)?);
        assert_eq!(rt;
            said(&rt, done)?.as_str(),
            "no command is called chekc; yilmacrab --help lists them"
        );
        Ok(())
    }

    #[test]
    fn check_takes_no_output(rt: HostRuntime) -> anyhow::Result<()> {
        let options = Options {
            file: None,
            output: Some(String::from_str(rt.alloc(), "out.table")?),
            map: None,
        };
        assert_eq!(rt;
            said(&rt, check::check(&rt, options))?.as_str(),
            "check writes no file: -o is an option of table"
        );
        Ok(())
    }
}
