//! The words that the program is called with.

use std::alloc::{AllocError, Global};
use std::env::FillError;
use std::rt::Env;

/// The words after the program's name. One that is not UTF-8 is the empty text.
pub fn words_after_name<R: Env + AllocGlobal>(rt: &R) -> Result<Vec<String>, AllocError> {
    let mut words = Vec::new(rt.alloc());
    for index in 1..usize::MAX {
        match word_at(rt, index)? {
            Some(word) => words.push(word)?,
            None => break,
        }
    }
    Ok(words)
}

/// The word at `index`, where 0 is the program's name.
fn word_at<R: Env + AllocGlobal>(rt: &R, index: usize) -> Result<Option<String>, AllocError> {
    let mut room = 256usize;
    for _ in 0..usize::BITS {
        let mut buffer = vec![in rt.alloc(); 0u8; room]?;
        match rt.arg(index, buffer.as_mut_slice()) {
            Ok(len) => {
                buffer.truncate(len);
                return Ok(Some(text_or_empty(rt.alloc(), buffer.as_slice())?));
            }
            Err(FillError::NotPresent) => return Ok(None),
            Err(FillError::TooLong) => room = room.saturating_add(room),
        }
    }
    Err(AllocError)
}

fn text_or_empty(alloc: Global, bytes: &[u8]) -> Result<String, AllocError> {
    match str::from_utf8(bytes) {
        Ok(text) => String::from_str(alloc, text),
        Err(_) => Ok(String::new(alloc)),
    }
}
