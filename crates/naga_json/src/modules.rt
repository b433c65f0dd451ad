//! What is read: from a text, or from JSON that a caller parsed who wants more of it.

ghost use Rattle.std.specs.Prelude.{◌≡◌, IfOk, Some};
ghost use Rattle.json.specs.Value.{value_view};
ghost use Rattle.naga_json.specs.Diagnostics.{filters_said, given_filters_said, known_filters_said};
ghost use Rattle.naga_json.specs.Diagnostics.{text_filters_said, text_given_filters_said};
ghost use Rattle.naga_json.specs.Diagnostics.{text_known_filters_said};
ghost use Rattle.naga_json.specs.Infos.{module_info_said, text_info_said};
ghost use Rattle.naga_json.specs.Modules.{given_said, is_bare, known_said, module_said, seen_given};
ghost use Rattle.naga_json.specs.Modules.{seen_known, seen_module, text_given_said};
ghost use Rattle.naga_json.specs.Modules.{text_known_said, text_module_said};
ghost use Rattle.naga_json.specs.Said.{Gives, field};
ghost use Rattle.naga_json.specs.Seen.{filters_of, seen_module_info};

use crate::error::{JsonKind, ReadError};
use crate::shape::{FromJson, in_member, is_object, member, missing, mistyped, optional_member};
use crate::text::parse;
use json::{Scratch, Value};
use naga_info::ModuleInfo;
use naga_ir::Module;
use std::alloc::Global;

/// Reads a module: `read_module(alloc, r#"{"functions": [{"name": "f"}]}"#)`. A refusal leaves
/// nothing, here and in the functions below: [`ReadError::OutOfMemory`] where memory is
/// refused, [`ReadError::NoJson`] where the text is no JSON or nests more than 127 deep, and
/// [`ReadError::Misfit`] where the JSON is no module, or says what the module here would lose.
#[tactic(auto, unfolding(crate::specs::Diagnostics::text_filters_said, crate::specs::Modules::text_module_said))]
pub fn read_module(alloc: Global, text: &str) -> Result<Module, ReadError>
    ensures said { Gives seen_module (text_module_said text.now) result }
    ensures filters { IfOk result
        (λ m. text_filters_said text.now ≡ Some (filters_of m)) }
{
    let mut scratch = Scratch::new(alloc);
    let value = parse(alloc, text, &mut scratch)?;
    module_of(alloc, &value)
}

/// Reads what is known of a module: `read_info(alloc, r#"{"functions": [[0, 0]]}"#)`. It fails as
/// [`read_module`] does. Whether it fits a module is not asked.
pub fn read_info(alloc: Global, text: &str) -> Result<ModuleInfo, ReadError>
    ensures { Gives seen_module_info (text_info_said text.now) result }
{
    let mut scratch = Scratch::new(alloc);
    let value = parse(alloc, text, &mut scratch)?;
    info_of(alloc, &value)
}

/// A module with what is known of it.
#[derive(Debug, Drop)]
pub struct Known {
    /// The module.
    pub module: Module,
    /// What is known of it.
    pub info: ModuleInfo,
}

/// Reads an object with a module and what is known of it, as its members `module` and `info`. It
/// fails as [`read_module`] does. Members beside these two are let be.
#[tactic(auto, unfolding(crate::specs::Diagnostics::text_known_filters_said, crate::specs::Modules::text_known_said))]
pub fn read_known(alloc: Global, text: &str) -> Result<Known, ReadError>
    ensures said { Gives seen_known (text_known_said text.now) result }
    ensures filters { IfOk result (λ known. text_known_filters_said text.now
        ≡ Some (filters_of known.«module»)) }
{
    let mut scratch = Scratch::new(alloc);
    let value = parse(alloc, text, &mut scratch)?;
    known_of(alloc, &value)
}

/// A module as it was given, with what is known of it or without.
#[derive(Debug, Drop)]
pub struct Given {
    /// The module.
    pub module: Module,
    /// What is known of it, where that is told.
    pub info: Option<ModuleInfo>,
    /// Whether the JSON is the module itself, and no object that has it as its member `module`.
    pub is_bare: bool,
}

/// Reads what [`read_known`] reads, where the info may be left out: the member `info` may be null or
/// absent. An object that has neither a member `module` nor a member `info` is the module itself,
/// as for [`read_module`]. It fails as that does.
#[tactic(auto, unfolding(crate::specs::Diagnostics::text_given_filters_said, crate::specs::Modules::text_given_said))]
pub fn read_given(alloc: Global, text: &str) -> Result<Given, ReadError>
    ensures said { Gives seen_given (text_given_said text.now) result }
    ensures filters { IfOk result (λ given. text_given_filters_said given.is_bare text.now
        ≡ Some (filters_of given.«module»)) }
{
    let mut scratch = Scratch::new(alloc);
    let value = parse(alloc, text, &mut scratch)?;
    given_of(alloc, &value)
}

/// Reads a module from JSON that was parsed before. It fails as [`read_module`] does, but there is
/// always JSON. Its blocks may nest 64 deep, more than those of any text.
pub fn module_of(alloc: Global, value: &Value) -> Result<Module, ReadError>
    ensures said { Gives seen_module (module_said (value_view value.now)) result }
    ensures filters { IfOk result (λ m. filters_said (value_view value.now) ≡ Some (filters_of m)) }
{
    Module::from_json(alloc, value)
}

/// Reads what is known of a module from JSON that was parsed before. It fails as [`module_of`]
/// does.
pub fn info_of(alloc: Global, value: &Value) -> Result<ModuleInfo, ReadError>
    ensures { Gives seen_module_info (module_info_said (value_view value.now)) result }
{
    ModuleInfo::from_json(alloc, value)
}

/// Reads what [`read_known`] reads from JSON that was parsed before. It fails as [`module_of`]
/// does.
#[tactic(auto, unfolding(crate::specs::Modules::known_said))]
pub fn known_of(alloc: Global, value: &Value) -> Result<Known, ReadError>
    ensures said { Gives seen_known (known_said (value_view value.now)) result }
    ensures filters { IfOk result (λ known. known_filters_said (value_view value.now)
        ≡ Some (filters_of known.«module»)) }
{
    let module = module_member(alloc, value)?;
    let info = member(alloc, value, "info")?;
    Ok(Known { module, info })
}

/// Reads what [`read_given`] reads from JSON that was parsed before. It fails as [`module_of`]
/// does.
#[tactic(auto, unfolding(crate::specs::Modules::given_said))]
pub fn given_of(alloc: Global, value: &Value) -> Result<Given, ReadError>
    ensures said { Gives seen_given (given_said (value_view value.now)) result }
    ensures filters { IfOk result (λ given. given_filters_said given.is_bare (value_view value.now)
        ≡ Some (filters_of given.«module»)) }
{
    if is_bare(value) {
        let module = module_of(alloc, value)?;
        return Ok(Given {
            module,
            info: None,
            is_bare: true,
        });
    }
    let module = module_member(alloc, value)?;
    let info: Option<ModuleInfo> = optional_member(alloc, value, "info")?;
    Ok(Given {
        module,
        info,
        is_bare: false,
    })
}

/// The member `module`, read.
fn module_member(alloc: Global, value: &Value) -> Result<Module, ReadError>
    ensures said { Gives seen_module (field "module" module_said (value_view value.now)) result }
    ensures filters { IfOk result
        (λ m. known_filters_said (value_view value.now) ≡ Some (filters_of m)) }
{
    if !is_object(value) {
        return Err(mistyped(alloc, JsonKind::Object));
    }
    let read = match value.get("module") {
        Some(module) => module_of(alloc, module),
        None => Err(missing(alloc)),
    };
    in_member(alloc, "module", read)
}

/// Whether the value is an object without a member `module` or `info`.
fn is_bare(value: &Value) -> bool
    ensures { result ≡ is_bare (value_view value.now) }
{
    is_object(value) && value.get("module").is_none() && value.get("info").is_none()
}
