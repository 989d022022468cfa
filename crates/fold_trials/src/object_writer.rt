// Objects as bytes: the header, the bytes of the sections, and their headers at the end.
use std::alloc::{AllocError, Global};

// A section and what its header tells. Its bytes stand in the file, be they fewer than `size` says.
#[derive(Drop)]
pub struct Section {
    pub kind: u64,
    pub flags: u64,
    pub size: usize,
    pub link: usize,
    pub info: usize,
    pub alignment: u64,
    pub stride: usize,
    pub bytes: Vec<u8>,
}

// A number of `width` bytes, the lowest first.
pub fn push_number(bytes: &mut Vec<u8>, x: u64, width: u8) -> Result<(), AllocError> {
    let mut rest = x;
    for _ in 0..width {
        bytes.push(u8::try_from(rest % 256).unwrap_or(0))?;
        rest /= 256;
    }
    Ok(())
}

fn push_header_of_file(file: &mut Vec<u8>, count: usize, headers: usize) -> Result<(), AllocError> {
    file.extend_from_slice(&[0x7f, 0x45, 0x4c, 0x46, 2, 1, 1, 0])?;
    push_number(file, 0, 8)?;
    push_number(file, 1, 2)?;
    push_number(file, 62, 2)?;
    push_number(file, 1, 4)?;
    push_number(file, 0, 8)?;
    push_number(file, 0, 8)?;
    push_number(file, headers as u64, 8)?;
    push_number(file, 0, 4)?;
    push_number(file, 64, 2)?;
    push_number(file, 0, 4)?;
    push_number(file, 64, 2)?;
    push_number(file, count as u64, 2)?;
    push_number(file, 0, 2)
}

fn push_header(file: &mut Vec<u8>, section: &Section, start: usize) -> Result<(), AllocError> {
    push_number(file, 0, 4)?;
    push_number(file, section.kind, 4)?;
    push_number(file, section.flags, 8)?;
    push_number(file, 0, 8)?;
    push_number(file, start as u64, 8)?;
    push_number(file, section.size as u64, 8)?;
    push_number(file, section.link as u64, 4)?;
    push_number(file, section.info as u64, 4)?;
    push_number(file, section.alignment, 8)?;
    push_number(file, section.stride as u64, 8)
}

pub fn object_of(heap: Global, sections: &[Section]) -> Result<Vec<u8>, AllocError> {
    let mut bodies: Vec<u8> = Vec::new(heap);
    for section in sections {
        bodies.extend_from_slice(section.bytes.as_slice())?;
    }
    let mut file = Vec::new(heap);
    push_header_of_file(&mut file, sections.len(), bodies.len().saturating_add(64))?;
    file.extend_from_slice(bodies.as_slice())?;
    let mut start = 64usize;
    for section in sections {
        push_header(&mut file, section, start)?;
        start = start.saturating_add(section.bytes.len());
    }
    Ok(file)
}
