// Names of ELF sections, and other bytes from outside, as lines for people have them.
use section_names::section_name;
use std::fmt;

// How many bytes are shown.
const SHOWN: usize = 200;

// Bytes that nobody vouches for: what is no plain character of them is escaped.
#[derive(Clone, Copy)]
pub struct Escaped<'a>(pub &'a [u8]);

// The name of a section of an object, if it has one.
pub fn name_of(object: &[u8], section: u16) -> Option<Escaped<'_>> {
    section_name(object, section)
        .filter(|name| !name.is_empty())
        .map(Escaped)
}

impl fmt::Display for Escaped<'_> {
    fn fmt<W: fmt::Write>(&self, f: &mut fmt::Formatter<W>) -> fmt::Result {
        for x in self.0.iter().take(SHOWN) {
            write!(f, "{}", x.escape_ascii())?;
        }
        if self.0.len() > SHOWN {
            write!(f, "..")?;
        }
        Ok(())
    }
}

// Sections by their numbers, each with its name where it has one.
#[derive(Clone, Copy)]
pub struct Named<'a> {
    pub object: &'a [u8],
    pub sections: &'a [u16],
}

impl fmt::Display for Named<'_> {
    fn fmt<W: fmt::Write>(&self, f: &mut fmt::Formatter<W>) -> fmt::Result {
        for (i, section) in self.sections.iter().enumerate() {
            if i > 0 {
                write!(f, ", ")?;
            }
            write!(f, "{section}")?;
            if let Some(name) = name_of(self.object, *section) {
                write!(f, " ({name})")?;
            }
        }
        Ok(())
    }
}
