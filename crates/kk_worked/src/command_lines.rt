//! The words of a command line.
use std::alloc::{AllocError, Global};

/// A seed of zeros: the first words of 64 bits are 0x903df1a0ade0b876, 0x28bd8653e56a5d40 and 0x1aed8da0b819d2bd.
pub const ZEROS: &str = "0000000000000000000000000000000000000000000000000000000000000000";

/// Words that are owned, as a command takes them.
pub fn texts(alloc: Global, words: &[&str]) -> Result<Vec<String>, AllocError> {
    let mut texts = Vec::new(alloc);
    for word in words {
        texts.push(String::from_str(alloc, word)?)?;
    }
    Ok(texts)
}

/// The words of a line, parted by single spaces.
pub fn words_of(alloc: Global, line: &str) -> Result<Vec<String>, AllocError> {
    let mut words = Vec::new(alloc);
    for word in line.split(' ') {
        words.push(String::from_str(alloc, word)?)?;
    }
    Ok(words)
}
