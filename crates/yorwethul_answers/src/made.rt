//! How the program was made.

use std::alloc::AllocError;
use std::fs;
use std::path::Path;
use std::rt::Files;

/// What stands in the file that says how this program was made: by which kit, of which commit, and
/// whether it is proved. A program can't know that of itself, so who makes one puts the file beside it,
/// as `PROGRAM.made`, or into `share/yorwethul` beside the folder that it is in. Where there is no such
/// file, that is unknown.
pub fn made_text<R: Files + AllocGlobal>(rt: &R) -> Result<String, AllocError> {
    match read_made(rt)? {
        Some(text) => Ok(text),
        None => String::from_str(rt.alloc(), "proved: unknown\n"),
    }
}

fn read_made<R: Files + AllocGlobal>(rt: &R) -> Result<Option<String>, AllocError> {
    let alloc = rt.alloc();
    let Ok(program) = fs::read_link(rt, "/proc/self/exe") else {
        return Ok(None);
    };
    let program = program.as_str();
    let beside = format!(in alloc; "{program}.made")?;
    if let Ok(text) = fs::read_to_string(rt, beside.as_str()) {
        return Ok(Some(text));
    }
    let Some(name) = Path::new(program).file_name() else {
        return Ok(None);
    };
    let folder = program.strip_suffix(name).unwrap_or("");
    let shared = format!(in alloc; "{folder}../share/yorwethul/{name}.made")?;
    match fs::read_to_string(rt, shared.as_str()) {
        Ok(text) => Ok(Some(text)),
        Err(_) => Ok(None),
    }
}
