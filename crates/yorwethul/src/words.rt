//! The words of the call.

use std::env::{Env, FillError};
use std::io;
use thiserror::Error;

/// Why the words of the call can't be read.
#[derive(Debug, Drop, Error)]
pub enum WordsError {
    /// A word that is no UTF-8, as it can be shown. The paths that the program can open are UTF-8.
    #[error("{0}: this word is no UTF-8; a file of such a name can be the standard input: < NAME")]
    NoUtf8(String),
    /// Memory was refused.
    #[error("{0}")]
    Memory(#[from] io::Error),
}

/// The words of the call. An `Err` names the first that is no text.
pub fn words_of<R: Env + AllocGlobal>(rt: &R) -> Result<Vec<String>, WordsError> {
    let alloc = rt.alloc();
    let mut words = Vec::new(alloc);
    for at in 0..usize::MAX {
        match bytes_of(rt, at)? {
            Some(bytes) => words.push(text_of(rt, bytes)?).map_err(io::Error::from)?,
            None => break,
        }
    }
    Ok(words)
}

/// The bytes of a word, where there is one.
fn bytes_of<R: Env + AllocGlobal>(rt: &R, at: usize) -> io::Result<Option<Vec<u8>>> {
    let mut room: usize = 256;
    for _ in 0..usize::BITS {
        let mut bytes = vec![in rt.alloc(); 0u8; room]?;
        match rt.arg(at, bytes.as_mut_slice()) {
            Ok(length) => {
                bytes.truncate(length);
                return Ok(Some(bytes));
            }
            Err(FillError::NotPresent) => return Ok(None),
            Err(FillError::TooLong) => room = room.saturating_mul(2),
        }
    }
    Err(io::Error::from(io::ErrorKind::OutOfMemory))
}

/// A word as a text.
fn text_of<R: AllocGlobal>(rt: &R, word: Vec<u8>) -> Result<String, WordsError> {
    match String::from_utf8(word) {
        Ok(text) => Ok(text),
        Err(no_text) => {
            let bytes = no_text.into_bytes();
            let shown = String::from_utf8_lossy(rt.alloc(), bytes.as_slice()).map_err(
                io::Error::from,
            )?;
            Err(WordsError::NoUtf8(shown))
        }
    }
}
