// Survey files for tests.
use std::alloc::{AllocError, Global};

// Desk, Hall, Stair and Room 4, with five passages; 103 bytes, the labels from byte 84.
pub const WORKED: &[u8; 103] =
    b"F\x01\x04\x00\x05\x00SGT\x00\x04\x00X\x00\x04\x00\x5c\x00\x05\x00a\x00\x06\x00\x00\x00\x01\x00\x0a\x00\x00\x00\x05\x00\x00\x00\x00\x00\x02\x00\x14\x00\x00\x00\x02\x00\x00\x00\x01\x00\x03\x00\x0a\x00\x00\x00\x01\x00\x00\x00\x02\x00\x03\x00\x14\x00\x00\x00\x03\x00\x00\x00\x01\x00\x02\x00\x05\x00\x00\x00\x00\x00\x00\x00DeskHallStairRoom 4";

// A hotel with so many places, all with one label, and so many passages from place 0 to one place.
#[derive(Clone, Copy)]
pub struct Shape<'a> {
    pub places: u16,
    pub passages: u16,
    pub to: u16,
    pub label: &'a [u8],
}

pub fn file_of(heap: Global, shape: Shape) -> Result<Vec<u8>, AllocError> {
    let mut file = Vec::new(heap);
    file.extend_from_slice(b"F\x01")?;
    add_two(&mut file, u32::from(shape.places))?;
    add_two(&mut file, u32::from(shape.passages))?;
    file.extend_from_slice(b"SG")?;
    let len = (shape.label.len() & 0xff) as u32;
    let mut offset = 8 + 4 * u32::from(shape.places) + 12 * u32::from(shape.passages);
    for _ in 0..shape.places {
        add_two(&mut file, offset)?;
        add_two(&mut file, len)?;
        offset = offset.wrapping_add(len);
    }
    for _ in 0..shape.passages {
        add_two(&mut file, 0)?;
        add_two(&mut file, u32::from(shape.to))?;
        file.extend_from_slice(b"\x01\x00\x00\x00\x02\x00\x00\x00")?;
    }
    for _ in 0..shape.places {
        file.extend_from_slice(shape.label)?;
    }
    Ok(file)
}

fn add_two(file: &mut Vec<u8>, n: u32) -> Result<(), AllocError> {
    let bytes = ((n & 0xffff) as u16).to_le_bytes();
    file.extend_from_slice(&bytes)
}
