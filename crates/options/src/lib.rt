// The words after a command.

#![tactic(auto)]

use anyhow::{Context, bail, ensure};
use call_lines::{bind, number};
use calls::Call;
use std::alloc::Global;
use std::env::Args;

// What the words after a command are gathered into.
trait Gather {
    // Takes a word, and where it is an option the word after it.
    fn take(&mut self, word: String, words: &mut Args) -> anyhow::Result<()>;
}

// At most so many words, an option with its value as one: the loop ends, however many there are.
fn take_all<T: Gather + Drop>(mut gathered: T, mut words: Args, most: u16) -> anyhow::Result<T> {
    for _ in 0..most {
        let Some(word) = words.next() else {
            return Ok(gathered);
        };
        gathered.take(word, &mut words)?;
    }
    ensure!(
        words.next().is_none(),
        "at most {most} words are taken, an option with its value as one"
    );
    Ok(gathered)
}

// The word after an option.
fn value(words: &mut Args, option: &str) -> anyhow::Result<String> {
    words
        .next()
        .context(format_args!("something has to follow {option}"))
}

// A word that is none of an option: the file that is read, if there was none before it.
fn file(word: String, before: &Option<String>) -> anyhow::Result<Option<String>> {
    if word.as_str().starts_with('-') {
        bail!("no option is called {word}; yilmacrab --help lists them");
    }
    ensure!(before.is_none(), "only one file can be read");
    Ok(Some(word))
}

// What most commands are to do.
#[derive(Drop, Default)]
pub struct Options {
    // the file that is read; without one, standard input
    pub file: Option<String>,
    // the file that the table is written to; without one, standard output
    pub output: Option<String>,
    // the file that the fold map is written to, if it is wanted
    pub map: Option<String>,
}

impl Gather for Options {
    fn take(&mut self, word: String, words: &mut Args) -> anyhow::Result<()> {
        match word.as_str() {
            "-o" => self.output = Some(value(words, "-o")?),
            "-m" => self.map = Some(value(words, "-m")?),
            "-n" => bail!("-n is an option of merged"),
            _ => self.file = file(word, &self.file)?,
        }
        Ok(())
    }
}

pub fn read_options(words: Args) -> anyhow::Result<Options> {
    take_all(Options::default(), words, 64)
}

// What `fold` is to do.
#[derive(Drop)]
pub struct Wanted {
    pub options: Options,
    // the calls in the order given
    pub calls: Vec<Call>,
}

impl Gather for Wanted {
    fn take(&mut self, word: String, words: &mut Args) -> anyhow::Result<()> {
        let call = match word.as_str() {
            "--bind" => bind(value(words, "--bind")?.as_str())?,
            "--pin" => Call::Pin {
                section: number(value(words, "--pin")?.as_str())?,
            },
            "--root" => Call::Root {
                section: number(value(words, "--root")?.as_str())?,
            },
            _ => return self.options.take(word, words),
        };
        self.calls.push(call)?;
        Ok(())
    }
}

pub fn read_wanted(heap: Global, words: Args) -> anyhow::Result<Wanted> {
    let nothing = Wanted {
        options: Options::default(),
        calls: Vec::new(heap),
    };
    take_all(nothing, words, 4096)
}

// What `merged` is to show.
#[derive(Drop, Default)]
pub struct Shown {
    // the fold map; without one, standard input
    pub map: Option<String>,
    // the object whose names of sections are told, if they are wanted
    pub object: Option<String>,
}

impl Gather for Shown {
    fn take(&mut self, word: String, words: &mut Args) -> anyhow::Result<()> {
        match word.as_str() {
            "-n" => self.object = Some(value(words, "-n")?),
            "-o" | "-m" => bail!("merged writes no file: {word} is an option of fold and run"),
            _ => self.map = file(word, &self.map)?,
        }
        Ok(())
    }
}

pub fn read_shown(words: Args) -> anyhow::Result<Shown> {
    take_all(Shown::default(), words, 64)
}

#[cfg(test)]
mod tests {
    use super::*;

    // Some words, as a program is given them.
    fn words(heap: Global, line: &str) -> anyhow::Result<Args> {
        let mut words = Vec::new(heap);
        for word in line.split(' ') {
            words.push(String::from_str(heap, word)?)?;
        }
        Ok(words.into_iter())
    }

    // What is said of words that are refused.
    fn said<T: Drop>(heap: Global, read: anyhow::Result<T>) -> anyhow::Result<String> {
        match read {
            Ok(_) => bail!("they were read"),
            Err(error) => Ok(format!(in heap; "{error}")?),
        }
    }

    #[test]
    fn words_are_read(rt: HostRuntime) -> anyhow::Result<()> {
        let heap = rt.alloc();
        let wanted = read_wanted(
            heap,
            words(heap, "a.o --pin 3 -o t --bind 7=2 -m m --root 1")?,
        )?;
        assert_eq!(rt; wanted.options.file.as_deref(), Some("a.o"));
        assert_eq!(rt; wanted.options.output.as_deref(), Some("t"));
        assert_eq!(rt; wanted.options.map.as_deref(), Some("m"));
        let calls = [
            Call::Pin { section: 3 },
            Call::Bind {
                name: 7,
                section: 2,
            },
            Call::Root { section: 1 },
        ];
        assert!(rt; wanted.calls.as_slice() == calls.as_slice());
        Ok(())
    }

    #[test]
    fn wrong_words_are_named(rt: HostRuntime) -> anyhow::Result<()> {
        let heap = rt.alloc();
        for (line, want) in [
            ("-x", "no option is called -x; yilmacrab --help lists them"),
            ("a b", "only one file can be read"),
            ("a -o", "something has to follow -o"),
            ("-n a.o", "-n is an option of merged"),
        ] {
            let read = read_options(words(heap, line)?);
            assert_eq!(rt; said(heap, read)?.as_str(), want);
        }
        for (line, want) in [
            ("--pin", "something has to follow --pin"),
            (
                "--pin 65536",
                "65536 is no number from 0 to 65535 in plain digits",
            ),
            (
                "--root 07",
                "07 is no number from 0 to 65535 in plain digits",
            ),
            (
                "--bind +7=1",
                "+7 is no number from 0 to 65535 in plain digits",
            ),
            ("--bind 7", "7 is no bind, which is written NAME=SECTION"),
        ] {
            let read = read_wanted(heap, words(heap, line)?);
            assert_eq!(rt; said(heap, read)?.as_str(), want);
        }
        let read = read_shown(words(heap, "-o m")?);
        assert_eq!(rt;
            said(heap, read)?.as_str(),
            "merged writes no file: -o is an option of fold and run"
        );
        Ok(())
    }

    #[test]
    fn words_have_an_end(rt: HostRuntime) -> anyhow::Result<()> {
        let heap = rt.alloc();
        let some = words(heap, "a.o -o t")?;
        assert!(rt; take_all(Options::default(), some, 2).is_ok());
        let more = words(heap, "a.o -o t -m m")?;
        assert_eq!(rt;
            said(heap, take_all(Options::default(), more, 2))?.as_str(),
            "at most 2 words are taken, an option with its value as one"
        );
        Ok(())
    }
}
