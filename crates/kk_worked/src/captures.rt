//! Frames and captures as bytes, under a small ticket.
use std::alloc::{AllocError, Global};

/// The ticket of a file of one byte: session 1, GF(8) with the modulus X^3 + X + 1, l = 3 and k = 1. It has three generations,
/// and rows of six bits.
pub const ONE_BYTE: &str = "kk1:00000001:3:0000000000000003:3:1:1";

/// The codewords of the symbols 0, 5 and 7 under this ticket.
pub const ZERO: [u8; 3] = [8, 16, 32];

pub const FIVE: [u8; 3] = [13, 17, 34];

pub const SEVEN: [u8; 3] = [15, 21, 33];

/// The codewords of the byte A0 under this ticket: those of the symbols 5, 0 and 0.
pub const FIVE_AND_ZEROS: &[[u8; 3]] = &[FIVE, ZERO, ZERO];

/// A frame of session 1 with this kind, generation and row.
pub fn frame(kind: u8, generation: u8, row: u8) -> [u8; 20] {
    [
        75, 75, 1, kind, 0, 0, 0, 1, 0, 0, 0, generation, 0, 0, 0, 0, 0, 0, 0, row,
    ]
}

/// A capture of these rows, three for each generation, and an END frame.
pub fn capture(alloc: Global, generations: &[[u8; 3]]) -> Result<Vec<u8>, AllocError> {
    let mut bytes = Vec::new(alloc);
    let mut number = 0u8;
    for rows in generations {
        for row in rows {
            bytes.extend_from_slice(&frame(0, number, *row))?;
        }
        number = number.saturating_add(1);
    }
    bytes.extend_from_slice(&frame(1, 0, 0))?;
    Ok(bytes)
}
