//! Why the program cannot go on.

use crate::hints::Hint;
use module_positions::NESTS_TOO_DEEP;
use naga_json::ReadError;
use std::io::ErrorKind;
use std::{fmt, io};

/// Why the program cannot go on, or not with a module.
#[derive(Debug, Drop)]
pub enum Failure<'a> {
    /// The file of this name cannot be read.
    Input(&'a str, io::Error),
    /// The file of this name holds no module or info, about which this is to do.
    Json(&'a str, ReadError, Option<Hint>),
    /// The JSON in the file of this name nests deeper than it is read.
    TooDeep(&'a str),
    /// The module and what is known of it are both asked from the standard input.
    OneInput,
    /// The standard output cannot be written.
    Output(io::Error),
    /// The file or the folder of this name cannot be made or written.
    File(String, io::Error),
    /// Two modules have this file for their output, of which this is the second.
    Doubled(&'a str, String),
    /// The first of these files, which is read, would be the output of the second, a module.
    Itself(&'a str, &'a str),
    /// The output of this name is to have files for several modules, and is none that can.
    NoFolder(&'a str),
    /// Memory was refused.
    Memory,
}

impl Failure<'_> {
    /// Whether it is about the input of this name.
    pub fn is_about(&self, input: &str) -> bool {
        match self {
            Failure::Input(name, _) | Failure::Json(name, _, _) | Failure::TooDeep(name) => {
                *name == input
            }
            Failure::OneInput => input == "-",
            _ => false,
        }
    }
}

impl fmt::Display for Failure<'_> {
    fn fmt<W: fmt::Write>(&self, f: &mut fmt::Formatter<W>) -> fmt::Result {
        match self {
            Failure::Input(name, _)
            | Failure::Json(name, _, _)
            | Failure::TooDeep(name)
            | Failure::Doubled(name, _)
            | Failure::Itself(name, _) => write!(f, "{}: {}", title(name), Reason(self)),
            Failure::NoFolder(name) => write!(f, "{name}: {}", Reason(self)),
            Failure::OneInput => write!(f, "{}: {}", title("-"), Reason(self)),
            Failure::Output(_) => write!(f, "standard output: {}", Reason(self)),
            Failure::File(name, _) => write!(f, "{name}: {}", Reason(self)),
            Failure::Memory => write!(f, "yorwethul: {}", Reason(self)),
        }
    }
}

/// Why the program cannot go on, without the name of the file.
#[derive(Drop)]
pub struct Reason<'a, 'b>(pub &'b Failure<'a>);

impl fmt::Display for Reason<'_, '_> {
    fn fmt<W: fmt::Write>(&self, f: &mut fmt::Formatter<W>) -> fmt::Result {
        match self.0 {
            Failure::Input(_, error) if error.kind() == ErrorKind::InvalidData => {
                write!(f, "{error}: a module is read as JSON in UTF-8")
            }
            Failure::Input(_, error) => write!(f, "{error}"),
            Failure::Json(_, error, None) => write!(f, "{error}"),
            Failure::Json(_, error, Some(hint)) => write!(f, "{error}; {hint}"),
            Failure::TooDeep(_) => f.write_str(NESTS_TOO_DEEP),
            Failure::OneInput => f.write_str("it cannot hold both the module and the info"),
            Failure::Output(error) => write!(f, "{error}"),
            Failure::File(_, error) => write!(f, "{error}"),
            Failure::Doubled(_, output) => write!(f, "an earlier module has its output {output}"),
            Failure::Itself(name, module) if name == module => {
                f.write_str("its output would be this file itself")
            }
            Failure::Itself(_, module) => {
                write!(f, "the output of {} would be this file", title(module))
            }
            Failure::NoFolder(_) => f.write_str("several modules need a folder"),
            Failure::Memory => f.write_str("out of memory"),
        }
    }
}

/// How an input is called in a message.
pub fn title(name: &str) -> &str {
    if name == "-" { "standard input" } else { name }
}
