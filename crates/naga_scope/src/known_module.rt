//! A module that is written, with what is known of it.

use naga_back::WriterFlags;
use naga_info::ModuleInfo;
use naga_ir::Module;
use naga_naming::NameKey;
use naga_tables::ModuleTables;
use std::alloc::Global;
use std::collections::HashMap;

/// A module that is written, with what is known of it and how it is written. It is made once for a
/// text, and each function is planned and written by it.
///
/// What is asked of it is that the module is accepted with what is known of it, and has its names
/// in the map and what is looked up of it in the tables.
#[derive(Clone, Copy)]
pub struct KnownModule<'a> {
    /// Where memory comes from.
    pub alloc: Global,
    /// The module.
    pub shader: &'a Module,
    /// What is known of it.
    pub info: &'a ModuleInfo,
    /// What is looked up of it.
    pub tables: &'a ModuleTables,
    /// The names of its items in WGSL.
    pub names: &'a HashMap<NameKey, String>,
    /// How it is written.
    pub flags: WriterFlags,
}
