// Calls as words and lines, and what they answer as lines.

#![tactic(auto)]

use anyhow::Context;
use calls::{Answer, Call, Place};
use fault::Fault;
use std::fmt;

// A number as it is printed: `parse` takes a plus sign and leading zeros too.
fn plain(word: &str) -> Option<u16> {
    if word.starts_with('+') || (word.starts_with('0') && word.len() > 1) {
        return None;
    }
    word.parse().ok()
}

// A number after an option.
pub fn number(word: &str) -> anyhow::Result<u16> {
    plain(word).context(format_args!("{word} is no number from 0 to 65535 in plain digits"))
}

// A bind as an option has it, NAME=SECTION.
pub fn bind(word: &str) -> anyhow::Result<Call> {
    let (name, section) = word.split_once('=').context(format_args!(
        "{word} is no bind, which is written NAME=SECTION"
    ))?;
    Ok(Call::Bind {
        name: number(name)?,
        section: number(section)?,
    })
}

// What a line of `run` asks for.
#[derive(Clone, Copy)]
pub enum Order {
    Call(Call),
    Place(u16),
}

// A line as what it asks for, if it is an order.
pub fn read_order(line: &str) -> Option<Order> {
    let (verb, rest) = line.split_once(' ').unwrap_or((line, ""));
    let call = match verb {
        "bind" => {
            let (name, section) = rest.split_once(' ')?;
            Call::Bind {
                name: plain(name)?,
                section: plain(section)?,
            }
        }
        "pin" => Call::Pin {
            section: plain(rest)?,
        },
        "root" => Call::Root {
            section: plain(rest)?,
        },
        "sweep" if rest.is_empty() => Call::Sweep,
        "fold" if rest.is_empty() => Call::Fold,
        "place" => return Some(Order::Place(plain(rest)?)),
        _ => return None,
    };
    Some(Order::Call(call))
}

// A refusal in a line.
#[derive(Clone, Copy)]
struct Refused(Fault);

impl fmt::Display for Refused {
    fn fmt<W: fmt::Write>(&self, f: &mut fmt::Formatter<W>) -> fmt::Result {
        let fault = self.0;
        let (kind, layer) = (u8::from(fault.kind), u8::from(fault.layer));
        write!(f, "refused {kind} {} {layer}", fault.place)
    }
}

// A call and its answer; it prints as a line.
#[derive(Clone, Copy)]
pub struct Done {
    pub call: Call,
    pub answer: Answer,
}

impl fmt::Display for Done {
    fn fmt<W: fmt::Write>(&self, f: &mut fmt::Formatter<W>) -> fmt::Result {
        match self.call {
            Call::Bind { name, section } => write!(f, "bind {name} {section} ")?,
            Call::Pin { section } => write!(f, "pin {section} ")?,
            Call::Root { section } => write!(f, "root {section} ")?,
            Call::Sweep => write!(f, "sweep ")?,
            Call::Fold => write!(f, "fold ")?,
        }
        match self.answer {
            Answer::Accepted => write!(f, "ok"),
            Answer::Refused(fault) => write!(f, "{}", Refused(fault)),
            Answer::Dropped { present, dropped } => write!(f, "{present} {dropped}"),
            Answer::Merged {
                present,
                merged,
                rounds,
            } => write!(f, "{present} {merged} {rounds}"),
        }
    }
}

// A section and where it is found; it prints as a line.
#[derive(Clone, Copy)]
pub struct Found {
    pub section: u16,
    pub place: Result<Place, Fault>,
}

impl fmt::Display for Found {
    fn fmt<W: fmt::Write>(&self, f: &mut fmt::Formatter<W>) -> fmt::Result {
        write!(f, "place {} ", self.section)?;
        match self.place {
            Ok(Place::At(number)) => write!(f, "{number}"),
            Ok(Place::Swept) => write!(f, "swept"),
            Ok(Place::Absent) => write!(f, "absent"),
            Err(fault) => write!(f, "{}", Refused(fault)),
        }
    }
}

#[cfg(test)]
mod tests {
    use super::*;
    use fault::{Kind, Layer};

    #[test]
    fn orders_are_read(rt: HostRuntime) {
        assert!(rt;
            matches!(
                read_order("bind 5 3"),
                Some(Order::Call(Call::Bind {
                    name: 5,
                    section: 3
                }))
            )
        );
        assert!(rt;
            matches!(
                read_order("pin 2"),
                Some(Order::Call(Call::Pin { section: 2 }))
            )
        );
        assert!(rt;
            matches!(
                read_order("root 4"),
                Some(Order::Call(Call::Root { section: 4 }))
            )
        );
        assert!(rt; matches!(read_order("sweep"), Some(Order::Call(Call::Sweep))));
        assert!(rt; matches!(read_order("fold"), Some(Order::Call(Call::Fold))));
        assert!(rt; matches!(read_order("place 7"), Some(Order::Place(7))));
        assert!(rt; matches!(read_order("place 0"), Some(Order::Place(0))));
        for line in [
            "",
            "bind 5",
            "pin 65536",
            "pin +5",
            "pin 007",
            "pin 00",
            "pin -0",
            "pin  5",
            "sweep 1",
            "fold 1",
            "sweep\r",
        ] {
            assert!(rt; read_order(line).is_none());
        }
    }

    #[test]
    fn binds_are_read(rt: HostRuntime) -> anyhow::Result<()> {
        assert!(rt;
            matches!(
                bind("5=3")?,
                Call::Bind {
                    name: 5,
                    section: 3
                }
            )
        );
        assert!(rt; bind("5").is_err());
        assert!(rt; bind("5=65536").is_err());
        Ok(())
    }

    #[test]
    fn answers_print(rt: HostRuntime) -> anyhow::Result<()> {
        let full = Fault::new(Kind::Full, 0, Layer::Pile);
        let refused = Done {
            call: Call::Root { section: 4 },
            answer: Answer::Refused(full),
        };
        assert_eq!(rt;
            format!(in rt.alloc(); "{refused}")?.as_str(),
            "root 4 refused 10 0 3"
        );
        let folded = Done {
            call: Call::Fold,
            answer: Answer::Merged {
                present: 8,
                merged: 2,
                rounds: 1,
            },
        };
        assert_eq!(rt; format!(in rt.alloc(); "{folded}")?.as_str(), "fold 8 2 1");
        let swept = Done {
            call: Call::Sweep,
            answer: Answer::Dropped {
                present: 8,
                dropped: 2,
            },
        };
        assert_eq!(rt; format!(in rt.alloc(); "{swept}")?.as_str(), "sweep 8 2");
        let found = Found {
            section: 3,
            place: Ok(Place::Swept),
        };
        assert_eq!(rt;
            format!(in rt.alloc(); "{found}")?.as_str(),
            "place 3 swept"
        );
        let absent = Found {
            section: 3,
            place: Ok(Place::Absent),
        };
        assert_eq!(rt;
            format!(in rt.alloc(); "{absent}")?.as_str(),
            "place 3 absent"
        );
        Ok(())
    }
}
