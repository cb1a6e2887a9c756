//! The octets of a row's words, read before its call is asked, so that the call is lent them.

use crate::RowError;
use hex::FromHexError;
use std::alloc::Global;

/// A word in hexadecimal, and its octets.
#[derive(Drop)]
pub struct Page<'a> {
    pub(crate) word: &'a str,
    pub(crate) octets: Vec<u8>,
}

/// The octets of each word of a text that is hexadecimal; spaces, commas and colons part them.
pub(crate) fn pages<'a>(alloc: Global, text: &'a str) -> Result<Vec<Page<'a>>, RowError> {
    let mut pages = Vec::new(alloc);
    for word in text.split([' ', ',', ':']) {
        push_page(alloc, &mut pages, word)?;
    }
    Ok(pages)
}

/// Appends the octets of a word, if it is hexadecimal.
fn push_page<'a>(alloc: Global, pages: &mut Vec<Page<'a>>, word: &'a str) -> Result<(), RowError> {
    match hex::decode(alloc, word) {
        Ok(octets) => Ok(pages.push(Page { word, octets })?),
        Err(FromHexError::OutOfMemory) => Err(RowError::OutOfMemory),
        Err(_) => Ok(()),
    }
}
