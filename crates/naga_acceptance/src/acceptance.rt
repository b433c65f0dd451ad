//! Which modules are accepted, and where one is not.

ghost use Rattle.std.specs.Prelude.{◌≡◌, IsTrue};
ghost use Rattle.std.specs.Option.{IfSome, is_none};
ghost use Rattle.naga_acceptance.specs.FirstFaults.{IsFirstFault};
ghost use Rattle.module_semantics.specs.acceptance.Accepted.{is_accepted};
ghost use Rattle.module_semantics.specs.acceptance.Ranges.{parts_stand_before};

use crate::agreeing::operators_fault;
use crate::faults::Unaccepted;
use crate::ranges::ranges_fault;
use crate::soundness::sound_fault;
use naga_info::ModuleInfo;
use naga_ir::Module;

/// The first position at which the module is not accepted, with what is known of it, and the kind of
/// fault there; none if it is accepted ([`accepts`]).
///
/// It is the first in the order in which the clauses are asked:
///
/// - Whether as much is known as there is, and types have forms that they may have.
/// - Whether all that is named is there: by types, special types, constants, overrides, variables,
///   the module's own expressions, functions and entry points; in a function by the whole, its
///   locals, its expressions and its statements.
/// - Whether the types that are known may be there.
/// - Whether all gets what it needs: the module's own expressions, the initialisers, the functions
///   and the entry points; in a function its expressions, its locals and its statements.
/// - Whether operators agree.
///
/// So it tells of types, of what a statement needs and of operators only where all that is named is
/// there.
///
/// It takes no memory, and answers whatever numbers a module holds, in the time that `accepts`
/// takes.
///
/// ```text
/// if let Some(fault) = unaccepted(&shader.module, &shader.info) {
///     println!(rt; "not accepted: {fault}")?;
/// }
/// ```
pub fn unaccepted(module: &Module, info: &ModuleInfo) -> Option<Unaccepted>
    ensures accepted { is_none result ≡ is_accepted «module».now info.now }
    ensures fault { IfSome result (IsFirstFault «module».now info.now) }
{
    let named = ranges_fault(module, info);
    if named.is_some() {
        return named;
    }
    let unsound = sound_fault(module, info);
    if unsound.is_some() {
        return unsound;
    }
    operators_fault(module, info)
}

/// Whether the module is accepted, with what is known of it:
///
/// - All that they name is there and stands where it may be named, and one thing is known of each
///   function, entry point and expression ([`ranges_fit`](crate::ranges::ranges_fit)).
/// - Each expression has its type and operands that it takes, initialisers have the types of their
///   items, and statements get what they need
///   ([`module_is_sound`](crate::soundness::module_is_sound)).
/// - Operators that are spelled alike, over operands of types alike, have types alike, across the
///   module ([`operators_agree`](crate::agreeing::operators_agree)).
///
/// Types are alike where WGSL spells them alike, each struct and each override standing for its
/// handle; a type without a form is alike only to itself. The counts are not looked at.
///
/// It takes no memory and answers whatever numbers a module holds. Time grows with the module;
/// case values of a switch that don't ascend, the default after all, are sorted, 4,096 at a time,
/// and all later ones are looked for among each 4,096; where there are more than 509 operators, all
/// expressions are gone through once for some 270 of these.
///
/// Each of its types is made of earlier ones, which is what `type_layout` asks of them. A module
/// that is accepted may be counted and written:
///
/// ```text
/// if accepts(&shader.module, &shader.info) {
///     count(&mut shader.info, &shader.module);
///     let text = write_string(alloc, &shader.module, &shader.info, no_flags())?;
/// }
/// ```
#[tactic(none)]
pub fn accepts(module: &Module, info: &ModuleInfo) -> bool
    ensures accepted { result ≡ is_accepted «module».now info.now }
    ensures ordered { IsTrue result → IsTrue (parts_stand_before «module».now.types) }
{
    unaccepted(module, info).is_none()
}
