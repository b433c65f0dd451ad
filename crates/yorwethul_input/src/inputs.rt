//! What is read from files and from the standard input.

use crate::failure::Failure;
use crate::hints::{Wanted, hint_of};
use module_positions::nests_too_deep;
use naga_info::ModuleInfo;
use naga_ir::Module;
use naga_json::{Given, ReadError, read_given, read_info, read_module};
use std::rt::Files;
use std::{fs, io};

/// Where a module comes from, and what is known of it.
#[derive(Clone, Copy, Debug, PartialEq, Eq)]
pub struct Source<'a> {
    /// The file with the module, or `-` for the standard input.
    pub module: &'a str,
    /// The file with what is known of the module, where one is named.
    pub info: Option<&'a str>,
}

/// The module in the file that is named, with what is known of it where a file tells that.
pub fn given_by<'a, R: Files + Input + AllocGlobal>(
    rt: &R,
    source: Source<'a>,
) -> Result<Given, Failure<'a>> {
    match source.info {
        Some(info) => given_in_two(rt, source.module, info),
        None => given_in(rt, source.module),
    }
}

fn given_in<'a, R: Files + Input + AllocGlobal>(
    rt: &R,
    name: &'a str,
) -> Result<Given, Failure<'a>> {
    let text = text_of(rt, name)?;
    match read_given(rt.alloc(), text.as_str()) {
        Ok(given) => Ok(given),
        Err(error) => Err(unread(name, text.as_str(), error, Wanted::Given)),
    }
}

fn given_in_two<'a, R: Files + Input + AllocGlobal>(
    rt: &R,
    module_name: &'a str,
    info_name: &'a str,
) -> Result<Given, Failure<'a>> {
    if info_name == "-" && module_name == "-" {
        return Err(Failure::OneInput);
    }
    let info = info_in(rt, info_name)?;
    match module_in(rt, module_name) {
        Ok(module) => Ok(Given {
            module,
            info: Some(info),
            is_bare: true,
        }),
        Err(failure) => Err(failure),
    }
}

fn module_in<'a, R: Files + Input + AllocGlobal>(
    rt: &R,
    name: &'a str,
) -> Result<Module, Failure<'a>> {
    let text = text_of(rt, name)?;
    match read_module(rt.alloc(), text.as_str()) {
        Ok(module) => Ok(module),
        Err(error) => Err(unread(name, text.as_str(), error, Wanted::Module)),
    }
}

fn info_in<'a, R: Files + Input + AllocGlobal>(
    rt: &R,
    name: &'a str,
) -> Result<ModuleInfo, Failure<'a>> {
    let text = text_of(rt, name)?;
    match read_info(rt.alloc(), text.as_str()) {
        Ok(info) => Ok(info),
        Err(error) => Err(unread(name, text.as_str(), error, Wanted::Info)),
    }
}

/// Why the text of the file of this name was not read as what is wanted of it.
fn unread<'a>(name: &'a str, text: &str, error: ReadError, wanted: Wanted) -> Failure<'a> {
    match error {
        ReadError::NoJson { .. } if nests_too_deep(text.as_bytes()) => Failure::TooDeep(name),
        error => {
            let hint = hint_of(text, &error, wanted);
            Failure::Json(name, error, hint)
        }
    }
}

/// The text of the file of this name, or of the standard input where the name is `-`.
fn text_of<'a, R: Files + Input + AllocGlobal>(
    rt: &R,
    name: &'a str,
) -> Result<String, Failure<'a>> {
    let read = if name == "-" {
        io::read_to_string(rt.alloc(), rt.reader())
    } else {
        fs::read_to_string(rt, name)
    };
    match read {
        Ok(text) => Ok(text),
        Err(error) => Err(Failure::Input(name, error)),
    }
}
