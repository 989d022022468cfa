// Reading a file as what it is.
use crate::refusal::or_row;
use crate::stale::warn;
use object::Object;
use std::io::Read;
use std::rt::Files;
use std::{fs, io};
use table::Table;

// The bytes of a file, or of standard input.
pub fn load<R: Files + Input + AllocGlobal>(rt: &R, file: &Option<String>) -> io::Result<Vec<u8>> {
    match file {
        Some(path) => fs::read(rt, path.as_str()),
        None => {
            let mut bytes = Vec::new(rt.alloc());
            rt.reader().read_to_end(&mut bytes)?;
            Ok(bytes)
        }
    }
}

// Objects begin with this byte, and no table does.
pub fn is_object(bytes: &[u8]) -> bool {
    bytes.first() == Some(&0x7f)
}

// Two functions, and the question which one where they are called: what comes out is of another type, and objects alone have a
// warning.
pub fn read_object(
    rt: &(impl Print + Eprint + AllocGlobal),
    bytes: Vec<u8>,
) -> anyhow::Result<Object> {
    warn(rt, bytes.as_slice())?;
    let mut object = Object::new(rt.alloc());
    or_row(rt, object.read(bytes))?;
    Ok(object)
}

pub fn read_table(rt: &(impl Print + AllocGlobal), bytes: Vec<u8>) -> anyhow::Result<Table> {
    let mut table = Table::new(rt.alloc());
    or_row(rt, table.read(bytes))?;
    Ok(table)
}
