//! A module's functions, written one by one.

ghost use Rattle.std.specs.Prelude.{◌≡◌, ℕ, List, IsTrue};
ghost use Rattle.module_semantics.specs.acceptance.Accepted.{is_accepted};
ghost use Rattle.module_semantics.specs.DeclarationForms.{HeadHasForm};
ghost use Rattle.module_semantics.specs.FunctionNumbers.{IsFunctionOf};
ghost use Rattle.module_semantics.specs.Names.{HasNamesOf, wgsl_names};
ghost use Rattle.naga_naming.specs.Keys.{names_in};
ghost use Rattle.naga_naming.specs.Naming.{HasNamed};
ghost use Rattle.naga_scope.specs.ExpressionNames.{HasOtherUses};
ghost use Rattle.naga_wgsl_fns.specs.Items.{AnswersShowAllOfItems, AnswersShowFunctions};
ghost use Rattle.naga_wgsl_fns.specs.Items.{AnswersShowItems, FunctionWriting, HasNamedItemsOf};
ghost use Rattle.naga_scope.specs.KnownModules.{IsKnownModule, number_in};

use crate::functions::write_planned;
use crate::plans::plan_of;
use naga_back::{FunctionType, WriterFlags};
use naga_info::ModuleInfo;
use naga_ir::Module;
use naga_names::namer::Namer;
use naga_naming::NameKey;
use naga_refusals::Error;
use naga_scope::KnownModule;
use naga_tables::{ModuleTables, unsupported_head};
use naga_words::TextSink;
use std::alloc::Global;
use std::collections::HashMap;

/// Writes a function or an entry point of a module after what the sink holds, without an empty
/// line after it; in front of an entry point stands its stage. The module is accepted with what is
/// known of it, `names` has the names of its items in WGSL, and `namer` is the one that gave them,
/// with any calls since.
///
/// The text has one reading, as a function or as an entry point. It is that which stands in a text
/// of the whole module, but that the labels which front ends gave in the function get the names
/// that `namer` gives them next, in the order of the text. The function is looked at before its
/// text: for what stands in it, it is refused as a module is that has it. Such a refusal leaves the
/// sink as it was, and `namer` has named some first ones of these labels. After want of memory or a
/// failure of the sink a beginning of the text may stand after what the sink held.
///
/// What the text means is said of it as a part of the program that is written for the module, where
/// its labels have the names that they got here and all others have any names that labels may have.
/// So texts that were written one by one, each after the others' labels, are parts of one program.
///
/// - Its `let`s are the module's, and its identifiers and words stand for what the module means,
///   whatever else the module has. That initialisers of constants with names do asks for the forms
///   of these alone, and that those of overrides and variables do for the forms of those.
/// - It does what the module does, where the types of all variables of the module and the
///   initialisers of all its constants with names have forms, what is written of each function
///   before it has forms and the rules of scope hold there; of an entry point these are all
///   functions. Nothing is asked of the types that `let`s tell there. An answer without an error
///   tells it of each of these, whatever its flags were (`answers_tell_of_those_before`). Such
///   answers of other calls tell it of items. Of a module with special types they don't tell
///   whether a variable's type names a struct that no text declares (`answers_tell_of_items`);
///   `names_undeclared` tells that.
/// - The program has the module's interface, where all that the module declares and all that is
///   written of its functions and entry points has forms.
pub fn write_function<W: TextSink>(
    alloc: Global,
    module: &Module,
    info: &ModuleInfo,
    ty: FunctionType,
    names: &HashMap<NameKey, String>,
    namer: &mut Namer,
    flags: WriterFlags,
    out: &mut W,
) -> Result<(), Error>
    requires accepted { IsTrue (is_accepted «module».now info.now) }
    requires there { IsFunctionOf ty «module».now }
    requires names { HasNamesOf «module».now (names_in names.now) }
    requires namer { HasNamedItemsOf «module».now namer.old }
    // Whatever labels it has named, as those of one `reset` and of calls since.
    ensures function { (earlier : List (List ℕ)) → HasNamed namer.old earlier →
        FunctionWriting «module».now info.now flags earlier ty result namer.new
        (W.text out.old) (W.text out.new) (W.failures out.old) (W.failures out.new) }
    ensures words { HasOtherUses namer.old namer.new }
    // So that the next function may be written.
    ensures named { HasNamedItemsOf «module».now namer.new }
{
    if let Some(construct) = unsupported_head(module, ty) {
        return Err(construct.to_error(alloc));
    }
    let tables = ModuleTables::of(alloc, module)?;
    let known = KnownModule {
        alloc,
        shader: module,
        info,
        tables: &tables,
        names,
        flags,
    };
    write_by_plan(&known, &ty, namer, out)
}

/// Where the functions before one were written by themselves, what its meaning asks of them holds.
pub fn answers_tell_of_those_before()
    ensures { AnswersShowFunctions }
{}

/// Where the types of a module's variables and the initialisers of its constants with names were
/// written by themselves, what a function's runs and the values of the module's own expressions ask
/// of them holds, if no variable's type names a struct that no text declares. No type of a module
/// without special types does.
pub fn answers_tell_of_items()
    ensures some { AnswersShowItems }
    ensures all { AnswersShowAllOfItems }
{}

/// Writes a function of which what it takes and gives and its stage have forms.
fn write_by_plan<W: TextSink>(
    known: &KnownModule<'_>,
    ty: &FunctionType,
    namer: &mut Namer,
    out: &mut W,
) -> Result<(), Error>
    requires known { IsKnownModule known.now }
    requires there { IsFunctionOf ty.now known.now.shader.now }
    requires head { HeadHasForm known.now.shader.now (number_in known.now ty.now) }
    requires words { HasOtherUses (wgsl_names known.now.shader.now) namer.old }
    ensures function { (earlier : List (List ℕ)) → HasNamed namer.old earlier →
        FunctionWriting known.now.shader.now known.now.info.now known.now.flags earlier ty.now
        result namer.new (W.text out.old) (W.text out.new) (W.failures out.old)
        (W.failures out.new) }
    ensures words { HasOtherUses namer.old namer.new }
{
    let plan = plan_of(known, ty, namer)?;
    write_planned(known, ty, plan, out)
}
