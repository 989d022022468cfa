// The reader of a section table: what it holds. Its calls and questions are in the module below.
ghost use Rattle.std.specs.Prelude.{◌≡◌, true};
ghost use Rattle.table.specs.Held.{held};

pub(crate) mod reader;

use crate::scan::Starts;

// A section table as it was read, and where the row of each present section begins.
#[derive(Drop)]
pub struct Table {
    text: Vec<u8>,
    starts: Starts,
    ghost fit: { held text.items starts.places ≡ true },
}
