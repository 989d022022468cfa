// Rows of tables and of fold maps with single blanks, as the cases have them, and with their numbers in columns.
use std::alloc::{AllocError, Global};
use std::fmt::Write;

// Rows begin with a capital letter, and no order does.
fn is_row(line: &str) -> bool {
    line.starts_with(|c: char| c.is_ascii_uppercase())
}

// Writes a row with its numbers in columns.
fn write_row(line: &str, wide: &mut String) -> Result<(), AllocError> {
    let (letter, numbers) = line.split_once(' ').unwrap_or((line, ""));
    wide.push_str(letter)?;
    for number in numbers.split(' ') {
        match letter {
            "B" => write!(wide, "{number:>4}")?,
            _ => write!(wide, "{number:>12}")?,
        }
    }
    wide.push('\n')
}

// A text with its rows in columns; its other lines stay.
pub fn widened(heap: Global, text: &str) -> Result<String, AllocError> {
    let mut wide = String::new(heap);
    for line in text.lines() {
        if is_row(line) {
            write_row(line, &mut wide)?;
        } else {
            writeln!(wide, "{line}")?;
        }
    }
    Ok(wide)
}
