//! Where what is printed goes.

use crate::files::{FileId, file_at};
use std::alloc::{AllocError, Global};
use std::path::Path;
use std::rt::Files;
use std::{fs, io};
use yorwethul_input::{Failure, Invocation, Task};

/// Where what is printed about modules goes.
#[derive(Clone, Copy, Debug, PartialEq, Eq)]
pub enum Outputs<'a> {
    /// To the standard output.
    Standard,
    /// Into this file.
    File(&'a str),
    /// Into files of this folder.
    Folder(&'a str),
}

/// Where the invocation wants what is printed. A folder is made where it is not there.
pub fn outputs_of<'a, R: Files + AllocGlobal>(
    rt: &R,
    invocation: &Invocation<'a>,
) -> Result<Outputs<'a>, Failure<'a>> {
    let Some(name) = invocation.output else {
        return Ok(Outputs::Standard);
    };
    let Ok(inputs) = inputs_in(rt, invocation) else {
        return Err(Failure::Memory);
    };
    let found = found_at(rt, name);
    if found == Some(Found::Folder) || name.ends_with('/') || invocation.modules.len() > 1 {
        if found == Some(Found::Other) {
            return Err(Failure::NoFolder(name));
        }
        check_names(rt, invocation, &inputs, name)?;
        return match fs::create_dir_all(rt, name) {
            Ok(()) => Ok(Outputs::Folder(name)),
            Err(error) => Err(failure_of(rt.alloc(), name, error)),
        };
    }
    for module in invocation.modules.iter() {
        check_name(rt, name, *module, &inputs)?;
    }
    Ok(Outputs::File(name))
}

/// What stands where an output is to be.
#[derive(Clone, Copy, Debug, PartialEq, Eq)]
enum Found {
    /// A folder, which gets files.
    Folder,
    /// A file, a device or the like.
    Other,
}

fn found_at<R: Files>(files: &R, name: &str) -> Option<Found> {
    match fs::metadata(files, name) {
        Ok(metadata) if metadata.is_dir() => Some(Found::Folder),
        Ok(_) => Some(Found::Other),
        Err(_) => None,
    }
}

/// A file that is read.
#[derive(Clone, Copy, Debug)]
struct Input<'a> {
    name: &'a str,
    file: Option<FileId>,
}

/// The files that are read: the modules, and what is known of one.
fn inputs_in<'a, R: Files + AllocGlobal>(
    rt: &R,
    invocation: &Invocation<'a>,
) -> Result<Vec<Input<'a>>, AllocError> {
    let mut inputs = Vec::new(rt.alloc());
    for module in invocation.modules.iter() {
        inputs.push(input_of(rt, *module))?;
    }
    if let Some(info) = invocation.info {
        inputs.push(input_of(rt, info))?;
    }
    Ok(inputs)
}

fn input_of<'a, R: Files>(files: &R, name: &'a str) -> Input<'a> {
    let path = if name == "-" { "/proc/self/fd/0" } else { name };
    Input {
        name,
        file: file_at(files, path),
    }
}

/// Whether the output of a module is none of the files that are read, by their names, or by which files
/// these are.
fn check_name<'a, R: Files>(
    files: &R,
    output: &str,
    module: &'a str,
    inputs: &[Input<'a>],
) -> Result<(), Failure<'a>> {
    let file = file_at(files, output);
    for input in inputs.iter() {
        if is_named(*input, output) || file.is_some() && file == input.file {
            return Err(Failure::Itself(input.name, module));
        }
    }
    Ok(())
}

/// Whether this is the name of a file that is read, which the standard input has not.
fn is_named(input: Input<'_>, path: &str) -> bool {
    input.name != "-" && from_here(input.name) == from_here(path)
}

/// A path without the `./` that may stand in front.
fn from_here(path: &str) -> &str {
    path.strip_prefix("./").unwrap_or(path)
}

/// Whether each module has an output of its own in the folder, which is no file that is read.
fn check_names<'a, R: Files + AllocGlobal>(
    rt: &R,
    invocation: &Invocation<'a>,
    inputs: &[Input<'a>],
    folder: &str,
) -> Result<(), Failure<'a>> {
    let alloc = rt.alloc();
    let mut names: Vec<String> = Vec::new(alloc);
    for module in invocation.modules.iter() {
        let Ok(name) = name_in(alloc, folder, *module, invocation.task) else {
            return Err(Failure::Memory);
        };
        check_name(rt, name.as_str(), *module, inputs)?;
        if names.contains(&name) {
            return Err(Failure::Doubled(*module, name));
        }
        if names.push(name).is_err() {
            return Err(Failure::Memory);
        }
    }
    Ok(())
}

/// The file into which what is printed about a module goes, unless it is the standard output.
pub fn output_of(
    alloc: Global,
    outputs: Outputs<'_>,
    module: &str,
    task: Task,
) -> Result<Option<String>, AllocError> {
    match outputs {
        Outputs::Standard => Ok(None),
        Outputs::File(name) => Ok(Some(String::from_str(alloc, name)?)),
        Outputs::Folder(folder) => Ok(Some(name_in(alloc, folder, module, task)?)),
    }
}

/// The file in a folder for what is printed about a module.
fn name_in(alloc: Global, folder: &str, module: &str, task: Task) -> Result<String, AllocError> {
    let slash = if folder.ends_with('/') { "" } else { "/" };
    let stem = stem_of(module);
    let ending = ending_of(task);
    format!(in alloc; "{folder}{slash}{stem}.{ending}")
}

/// The name of a module's file without its last ending.
fn stem_of(module: &str) -> &str {
    if module == "-" {
        "stdin"
    } else {
        Path::new(module).file_stem().unwrap_or("module")
    }
}

/// The ending of a file for what is printed.
fn ending_of(task: Task) -> &'static str {
    match task {
        Task::Write => "wgsl",
        Task::Check => "check.txt",
        Task::Layout => "layout.txt",
        Task::Names => "names.json",
        Task::Explain => "explain.txt",
        Task::Lines => "answers.jsonl",
        Task::Json => "answer.json",
    }
}

/// That the file or the folder of this name cannot be made or written.
fn failure_of<'a>(alloc: Global, name: &str, error: io::Error) -> Failure<'a> {
    match String::from_str(alloc, name) {
        Ok(name) => Failure::File(name, error),
        Err(_) => Failure::Memory,
    }
}
