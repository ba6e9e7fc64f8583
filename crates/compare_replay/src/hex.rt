// Bytes in hexadecimal.
use crate::fault::Fault;
use std::alloc::{AllocError, Global};

/// Decodes a text of two hexadecimal digits a byte, of either case.
pub fn read_hex(alloc: Global, text: &str) -> Result<Vec<u8>, Fault> {
    let mut bytes = Vec::new(alloc);
    for digits in text.as_bytes().chunks(2) {
        let byte = byte_of(digits).ok_or(Fault::NotHexadecimal)?;
        bytes.push(byte).map_err(AllocError::from)?;
    }
    Ok(bytes)
}

/// The byte of two hexadecimal digits, or `None` for any other text.
fn byte_of(digits: &[u8]) -> Option<u8> {
    let [high, low] = digits else {
        return None;
    };
    let high = char::from(*high).to_digit(16)?;
    let low = char::from(*low).to_digit(16)?;
    u8::try_from(16 * high + low).ok()
}
