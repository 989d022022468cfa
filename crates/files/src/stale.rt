// A warning for objects whose address-significance list may be stale. strip, objcopy and ld -r copy that list and leave its
// numbers as they were, but not its link to the symbol table. Whether the object is accepted does not hang on it.
use elf::kind;
use field::read;
use std::io;

// A field at `place` of section header `i`; none where it runs past the end. No `read_section`: of a header that is cut off, the
// fields that are there count too.
fn header_word(file: &[u8], table: u64, i: u16, place: u64) -> Option<u32> {
    let from = table.checked_add(64 * u64::from(i))?.checked_add(place)?;
    read(file, from).ok()
}

// Whether the list names another section than the symbol table.
fn is_stale(file: &[u8]) -> bool {
    let (Ok(table), Ok(count)) = (read::<u64>(file, 40), read::<u16>(file, 60)) else {
        return false;
    };
    // a loop, since both are found in one pass over the headers
    let mut symbols = None;
    let mut link = None;
    for i in 0..count {
        match header_word(file, table, i, 4) {
            Some(kind::SYMBOL_TABLE) => symbols = Some(u32::from(i)),
            Some(kind::ADDRESS_SIGNIFICANCE) => link = header_word(file, table, i, 40),
            _ => {}
        }
    }
    link.is_some() && link != symbols
}

pub fn warn(rt: &impl Eprint, file: &[u8]) -> io::Result<()> {
    if is_stale(file) {
        eprintln!(rt;
            "yilmacrab: warning: the address-significance list is not linked to the symbol table and may be stale"
        )?;
    }
    Ok(())
}

#[cfg(test)]
mod tests {
    use super::*;

    // Three section headers behind a file header: none, a symbol table, and a list that is linked to a section.
    fn linked_to(section: u8) -> [u8; 256] {
        let mut file = [0; 256];
        file[40] = 64;
        file[60] = 3;
        file[128 + 4] = 2;
        file[192 + 4] = 0x03;
        file[192 + 5] = 0x4c;
        file[192 + 6] = 0xff;
        file[192 + 7] = 0x6f;
        file[192 + 40] = section;
        file
    }

    #[test]
    fn a_list_is_stale_where_it_names_another_section(rt: HostRuntime) {
        assert!(rt; !is_stale(linked_to(1).as_slice()));
        assert!(rt; is_stale(linked_to(0).as_slice()));
        assert!(rt; is_stale(linked_to(2).as_slice()));
    }

    #[test]
    fn without_a_list_none_is_stale(rt: HostRuntime) {
        let mut file = linked_to(0);
        file[192 + 4] = 0;
        assert!(rt; !is_stale(file.as_slice()));
        assert!(rt; !is_stale(b""));
    }
}
