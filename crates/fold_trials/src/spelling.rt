// Tables and fold maps as texts, written row by row with `write!`.
use crate::shapes::{Aim, Part, World};
use std::alloc::AllocError;
use std::fmt::Write;

// A number as the rows have it.
pub fn number(x: usize) -> i64 {
    i64::try_from(x).unwrap_or(-1)
}

pub fn push_row(text: &mut String, letter: char, numbers: &[i64]) -> Result<(), AllocError> {
    write!(text, "{letter}")?;
    for x in numbers {
        write!(text, "{x:>12}")?;
    }
    writeln!(text)
}

pub fn push_bytes(text: &mut String, bytes: &[i64]) -> Result<(), AllocError> {
    write!(text, "B")?;
    for x in bytes {
        write!(text, "{x:>4}")?;
    }
    writeln!(text)
}

fn push_part(text: &mut String, s: usize, part: &Part) -> Result<(), AllocError> {
    let size = number(part.bytes.len());
    let links = number(part.links.len());
    let pinned = i64::from(part.pinned);
    push_row(
        text,
        'S',
        &[number(s), part.flags, part.alignment, size, links, pinned],
    )?;
    for row in part.bytes.as_slice().chunks(16) {
        push_bytes(text, row)?;
    }
    for link in &part.links {
        let (kind, target) = match link.aim {
            Aim::Section(t) => (0, t),
            Aim::Outside(e) => (1, e),
        };
        push_row(
            text,
            'R',
            &[
                link.offset,
                link.kind,
                kind,
                number(target),
                link.displacement,
            ],
        )?;
    }
    Ok(())
}

pub fn push_table(text: &mut String, world: &World) -> Result<(), AllocError> {
    push_row(
        text,
        'H',
        &[number(world.parts.len()), number(world.roots.len())],
    )?;
    for s in 0..world.parts.len() {
        if let Some(part) = world.part(s) {
            push_part(text, s, part)?;
        }
    }
    for root in &world.roots {
        push_row(text, 'T', &[number(*root)])?;
    }
    push_row(text, 'E', &[number(world.present())])
}
