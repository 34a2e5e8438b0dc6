//! What several of the tests use: texts, URLs and lists.

use irl_key::{Canon, Web, Work, canonical};
use irl_pld::{SuffixFault, Suffixes};
use std::alloc::{AllocError, Global};

/// A text that names a web page.
pub fn web(alloc: Global, text: &[u8]) -> Result<Web, AllocError> {
    match canonical(alloc, None, text)? {
        Canon::Web(web) => Ok(web),
        Canon::NotHttp | Canon::Bad | Canon::TooLong => Err(AllocError),
    }
}

/// The item with this number at this URL.
pub fn item(alloc: Global, number: u64, url: &[u8]) -> Result<Work, AllocError> {
    let web = web(alloc, url)?;
    Ok(Work { number, web })
}

/// Items numbered from 0.
pub fn items(alloc: Global, urls: &[&[u8]]) -> Result<Vec<Work>, AllocError> {
    let mut items = Vec::new(alloc);
    for (number, url) in urls.iter().enumerate() {
        items.push(item(alloc, number as u64, url)?)?;
    }
    Ok(items)
}

/// Suffixes that are taken.
pub fn suffixes(alloc: Global, text: &str) -> Result<Suffixes, AllocError> {
    match Suffixes::read(alloc, text.as_bytes()) {
        Ok(suffixes) => Ok(suffixes),
        Err(SuffixFault::BadLine(_) | SuffixFault::Memory) => Err(AllocError),
    }
}

/// A start, what is repeated behind it, and an end.
pub fn joined(
    alloc: Global,
    start: &[u8],
    part: &[u8],
    count: usize,
    end: &[u8],
) -> Result<Vec<u8>, AllocError> {
    let mut bytes = start.to_vec(alloc)?;
    for _ in 0..count {
        bytes.extend_from_slice(part)?;
    }
    bytes.extend_from_slice(end)?;
    Ok(bytes)
}
