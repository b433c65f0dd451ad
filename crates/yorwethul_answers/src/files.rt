//! Files that are written, and which of two paths lead to one.

use std::fmt::Display;
use std::fs::{File, Metadata, OpenFile, OpenOptions};
use std::io::{ErrorKind, Write};
use std::os::unix::fs::MetadataExt;
use std::rt::Files;
use std::{fs, io};

/// A regular file, by its device and its number there: two paths with equal ones lead to one file.
#[derive(Clone, Copy, Debug, PartialEq, Eq)]
pub struct FileId {
    device: u64,
    number: u64,
}

/// The regular file that a path leads to, where there is one and the system tells its number.
pub fn file_at<R: Files>(files: &R, path: &str) -> Option<FileId> {
    match fs::metadata(files, path) {
        Ok(metadata) if metadata.is_file() && metadata.ino() != 0 => Some(FileId {
            device: metadata.dev(),
            number: metadata.ino(),
        }),
        _ => None,
    }
}

/// Writes a text into the file of this name. Where that is absent, or a regular file of no other name
/// that may be written, the text goes into a new file beside it, which then takes its place: so what was
/// there stays whole where the text can't be written. Else it is written as it is, as a device, and so it
/// is where no new file of the same owner can be made beside it.
pub fn write_file<R: Files + AllocGlobal>(
    rt: &R,
    name: &str,
    text: impl Display + Drop,
) -> io::Result<()> {
    let beside = format!(in rt.alloc(); "{name}.new")?;
    let beside = beside.as_str();
    match new_beside(rt, name, beside) {
        Some(mut file) => {
            let written = write_and_flush(text, &mut file);
            take_place(rt, name, beside, written)
        }
        None => {
            let mut file = fs::create(rt, name)?;
            write_and_flush(text, &mut file)
        }
    }
}

/// A new file that may take the place of the one of this name, with its owner and permissions.
fn new_beside<R: Files>(files: &R, name: &str, beside: &str) -> Option<R::File> {
    match fs::symlink_metadata(files, name) {
        Ok(metadata) if metadata.is_file() && metadata.nlink() == 1 && is_writable(files, name) => {
            let file = File::create_new(files, beside).ok()?;
            if takes_over(&file, &metadata) {
                Some(file)
            } else {
                let _ = fs::remove_file(files, beside);
                None
            }
        }
        Err(error) if error.kind() == ErrorKind::NotFound => File::create_new(files, beside).ok(),
        _ => None,
    }
}

/// Whether the file of this name may be written, which its folder doesn't say.
fn is_writable<R: Files>(files: &R, name: &str) -> bool {
    OpenOptions::new().write(true).open(files, name).is_ok()
}

/// Gives a new file the permissions of the one whose place it is to take, if it has the same owner.
fn takes_over<F: OpenFile>(file: &F, old: &Metadata) -> bool {
    match file.metadata() {
        Ok(own) => {
            own.uid() == old.uid()
                && own.gid() == old.gid()
                && file.set_permissions(old.permissions()).is_ok()
        }
        Err(_) => false,
    }
}

/// Puts the file beside an output into its place, where it was written, and else removes it.
fn take_place<R: Files>(
    files: &R,
    name: &str,
    beside: &str,
    written: io::Result<()>,
) -> io::Result<()> {
    let done = match written {
        Ok(()) => fs::rename(files, beside, name),
        Err(error) => Err(error),
    };
    if done.is_err() {
        let _ = fs::remove_file(files, beside);
    }
    done
}

/// Writes all of a text.
pub fn write_and_flush<O: Write>(text: impl Display + Drop, out: &mut O) -> io::Result<()> {
    write!(out, "{text}")?;
    out.flush()
}
