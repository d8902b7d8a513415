//! Bytes by their digits, with others in their place, and beginnings of them.
use std::alloc::Global;

// What reads a text has no contract, so that a check doesn't compute with the text.
pub fn bytes_of(alloc: Global, digits: &str) -> Option<Vec<u8>> {
    hex::decode(alloc, digits).ok()
}

/// Whether these bytes are spelled so.
pub fn is_spelled(alloc: Global, bytes: &[u8], digits: &str) -> bool {
    match bytes_of(alloc, digits) {
        Some(spelled) => spelled.as_slice() == bytes,
        None => false,
    }
}

/// The first bytes, so many.
pub fn front(bytes: &[u8], len: usize) -> &[u8] {
    match bytes.split_at_checked(len) {
        Some((front, _)) => front,
        None => bytes,
    }
}

/// Puts a byte in the place of another, which it gives.
pub fn exchange(bytes: &mut [u8], at: usize, byte: u8) -> u8 {
    match bytes.get_mut(at) {
        Some(place) => {
            let old = *place;
            *place = byte;
            old
        }
        None => byte,
    }
}

/// What a byte is changed to: 00, ff, one more and one less.
pub fn changes_of(byte: u8) -> [u8; 4] {
    [0, 0xff, byte.wrapping_add(1), byte.wrapping_sub(1)]
}
