//! The directives of a module as a text, and written to a sink.

ghost use Rattle.std.specs.Prelude.{◌≡◌, ◌++◌, IfErr, IfOk, OnOk, string_bytes};
ghost use Rattle.diagnostic_directives.specs.Directives.{HasNoDirectives, HaveNames, Unwritten};
ghost use Rattle.diagnostic_directives.specs.Directives.{module_directives};
ghost use Rattle.diagnostic_directives.specs.Filters.{AreApart, filters_in_force};

use crate::error::DirectiveError;
use crate::found::found_directives;
use naga_ir::Module;
use naga_words::TextSink;
use std::alloc::Global;

/// The directives of the filters that hold in the module, a line each, and an empty line after them:
///
/// ```text
/// diagnostic(off, derivative_uniformity);
///
/// ```
///
/// They stand with the outermost filter first, and each rule has one, that of the filter nearest to
/// the leaf. Where no filter holds the text is empty. [`DirectiveError::RuleName`] comes where a rule
/// has no name, and [`DirectiveError::Sink`] for want of memory alone. It is for any module: a chain
/// of filters ends where a parent does not stand before its filter.
#[tactic(auto, using(crate::proofs::Chains::apart))]
pub fn module_directives(alloc: Global, module: &Module) -> Result<String, DirectiveError>
    ensures text { IfOk result (λ text. string_bytes text ≡ module_directives «module».now) }
    ensures named { OnOk result (HaveNames (filters_in_force «module».now)) }
    ensures apart { OnOk result (AreApart (filters_in_force «module».now)) }
    ensures error { IfErr result (HasNoDirectives «module».now) }
{
    let found = found_directives(alloc, module)?;
    let text = found.text(alloc)?;
    Ok(text)
}

/// Writes what [`module_directives`] gives to the sink. It fails as that does, and then the sink is as it was;
/// where the sink fails, a beginning of the directives may stand in it.
pub fn write_directives<W: TextSink>(
    alloc: Global,
    module: &Module,
    sink: &mut W,
) -> Result<(), DirectiveError>
    ensures text { OnOk result
        (W.text sink.new ≡ W.text sink.old ++ module_directives «module».now) }
    ensures failures { OnOk result (W.failures sink.new ≡ W.failures sink.old) }
    ensures named { OnOk result (HaveNames (filters_in_force «module».now)) }
    ensures apart { OnOk result (AreApart (filters_in_force «module».now)) }
    ensures error { IfErr result (Unwritten «module».now (W.text sink.old) (W.text sink.new)
        (W.failures sink.old) (W.failures sink.new)) }
{
    let text = module_directives(alloc, module)?;
    sink.write_str(text.as_str())?;
    Ok(())
}
