//! The bytes of columns whose contents follow one pattern.

use std::alloc::{AllocError, Global};

/// `count` bytes that go round through 0 to 250.
pub fn pattern(alloc: Global, count: usize) -> Result<Vec<u8>, AllocError> {
    let mut bytes = vec![in alloc; 0u8; count]?;
    for (place, byte) in bytes.iter_mut().enumerate() {
        *byte = (place % 251) as u8;
    }
    Ok(bytes)
}

/// One packed run of `8 * groups` numbers of `width` bits.
pub fn packed_run(alloc: Global, width: u8, groups: u32) -> Result<Vec<u8>, AllocError> {
    let mut bytes = Vec::new(alloc);
    let mut header = 2 * u64::from(groups) + 1;
    for _ in 0..10 {
        if header < 128 {
            break;
        }
        bytes.push((header % 128) as u8 + 128)?;
        header /= 128;
    }
    bytes.push((header % 128) as u8)?;
    let numbers = pattern(alloc, usize::from(width) * groups as usize)?;
    bytes.extend_from_slice(&numbers)?;
    Ok(bytes)
}

/// Indices of `width` bits: the byte of the width, then one packed run.
pub fn indices(alloc: Global, width: u8, groups: u32) -> Result<Vec<u8>, AllocError> {
    let mut bytes = Vec::new(alloc);
    bytes.push(width)?;
    let run = packed_run(alloc, width, groups)?;
    bytes.extend_from_slice(&run)?;
    Ok(bytes)
}
