//! Writes switches.

ghost use Rattle.std.specs.Prelude.{◌≡◌, ◌<◌, ◌+◌, [], IsTrue, if◌then◌else◌, suc};
ghost use Rattle.naga_form.specs.Statements.{case_value_form};
ghost use Rattle.naga_ir.specs.StatementTree.{no_statements, switch};
ghost use Rattle.naga_ir.specs.StatementViews.{cases_of};
ghost use Rattle.naga_scope.specs.Changes.{block_changes, cases_changes, statement_changes};
ghost use Rattle.naga_scope.specs.Log.{Same};
ghost use Rattle.naga_words.specs.Output.{Writes};
ghost use Rattle.naga_wgsl_fns.specs.FunctionText.{CanWrite, CanWriteBlock, CanWriteCases};
ghost use Rattle.naga_wgsl_fns.specs.FunctionText.{CanWriteStatement};
ghost use Rattle.naga_wgsl_fns.specs.BodyStates.{HasScope, PassesBlock, PassesCases};
ghost use Rattle.naga_wgsl_fns.specs.BodyStates.{PassesStatement, text_at};
ghost use Rattle.naga_wgsl_fns.specs.Statements.{case_text, cases_text, group_start, group_text};
ghost use Rattle.naga_wgsl_fns.specs.Statements.{case_value_text, case_values_of, stands_alone};
ghost use Rattle.naga_wgsl_fns.specs.Statements.{statement_text, waiting_text};

use crate::functions::FunctionText;
use crate::lines::BodyState;
use naga_ir::{Block, Expression, Handle, SwitchCase, SwitchValue};
use naga_wgsl_shared::literal::write_number;
use naga_words::{Output, TextSink};

impl FunctionText<'_> {
    /// A switch. The scope stays.
    #[cycle(statement)]
    #[tactic(auto, using(naga_words::proofs::Writing::writes_then, crate::proofs::SwitchRows::switch_row, crate::proofs::StatementParts::selector_inside, crate::proofs::StatementParts::cases_inside))]
    pub(crate) fn write_switch<W: TextSink>(
        &self,
        selector: Handle<Expression>,
        cases: &[SwitchCase],
        at: &mut BodyState,
        out: &mut Output<'_, W>,
    )
        requires can { CanWrite self.now }
        requires statement { CanWriteStatement self.now (switch selector (cases_of cases.now)) }
        requires scope { HasScope self.now at.old.scope
            (statement_changes (switch selector (cases_of cases.now))) }
        ensures text { Writes W.text W.failures out.old out.new (text_at self.now at.old.scope
            statement_text at.old.indent (switch selector (cases_of cases.now))) }
        ensures passed { PassesStatement self.now at.old at.new
            (switch selector (cases_of cases.now)) }
        ensures same { Same at.old.scope at.new.scope }
    {
        self.write_around("switch ", selector, " {\n", at, out);
        let level = at.indent.level();
        at.indent.deepen(out);
        self.write_cases(cases, at, out);
        at.indent.back_to(level);
        at.write_start("}\n", out);
    }

    /// The cases of a switch. One that falls through has no statements, and gives its value to the
    /// next one.
    #[cycle(statement)]
    #[tactic(auto, using(naga_words::proofs::Writing::loop_writes))]
    fn write_cases<W: TextSink>(
        &self,
        cases: &[SwitchCase],
        at: &mut BodyState,
        out: &mut Output<'_, W>,
    )
        requires can { CanWrite self.now }
        requires cases { CanWriteCases self.now (cases_of cases.now) }
        requires scope { HasScope self.now at.old.scope (cases_changes (cases_of cases.now)) }
        ensures text { Writes W.text W.failures out.old out.new
            (text_at self.now at.old.scope cases_text at.old.indent [] (cases_of cases.now)) }
        ensures passed { PassesCases self.now at.old at.new (cases_of cases.now) }
        ensures same { Same at.old.scope at.new.scope }
    {
        let mut first = 0;
        for index in 0..cases.len() {
            let case = &cases[index];
            self.write_case(&cases[first..index], case, at, out);
            first = first_waiting(case, first, index);
        }
    }

    /// A case that doesn't fall through, with the values of those that wait for it.
    #[cycle(statement)]
    #[tactic(auto, using(naga_words::proofs::Writing::writes_nothing, crate::proofs::Passing::nothing_passed), unfolding(crate::specs::Statements::case_text))]
    fn write_case<W: TextSink>(
        &self,
        waiting: &[SwitchCase],
        case: &SwitchCase,
        at: &mut BodyState,
        out: &mut Output<'_, W>,
    )
        requires can { CanWrite self.now }
        requires body { CanWriteBlock self.now case.now.body }
        requires empty { IsTrue case.now.fall_through → case.now.body ≡ no_statements }
        requires scope { HasScope self.now at.old.scope (block_changes case.now.body) }
        ensures text { Writes W.text W.failures out.old out.new (text_at self.now at.old.scope
            case_text at.old.indent (case_values_of waiting.now) (case_value_form case.now.value)
            case.now.fall_through case.now.body) }
        ensures passed { PassesBlock self.now at.old at.new case.now.body }
        ensures same { Same at.old.scope at.new.scope }
    {
        if !case.fall_through {
            self.write_group(waiting, case.value, &case.body, at, out);
        }
    }

    /// The values of these cases and the last one, and the block that they are for.
    #[cycle(statement)]
    #[tactic(auto, using(naga_words::proofs::Writing::writes_then, crate::proofs::SwitchRows::group_row))]
    fn write_group<W: TextSink>(
        &self,
        waiting: &[SwitchCase],
        value: SwitchValue,
        body: &Block,
        at: &mut BodyState,
        out: &mut Output<'_, W>,
    )
        requires can { CanWrite self.now }
        requires body { CanWriteBlock self.now body.now }
        requires scope { HasScope self.now at.old.scope (block_changes body.now) }
        ensures text { Writes W.text W.failures out.old out.new (text_at self.now at.old.scope
            group_text at.old.indent (case_values_of waiting.now) (case_value_form value) body.now) }
        ensures passed { PassesBlock self.now at.old at.new body.now }
        ensures same { Same at.old.scope at.new.scope }
    {
        out.put(at.indent.as_str());
        write_group_start(waiting, value, out);
        out.put(" {\n");
        self.write_inner(body, at, out);
        at.write_start("}\n", out);
    }
}

/// From which case on values wait after the case with this number, in front of which those from
/// the first one on wait.
fn first_waiting(case: &SwitchCase, first: usize, index: usize) -> usize
    requires { index < usize.MAX }
    ensures { result ≡ (if case.now.fall_through then first else index + 1) }
{
    if case.fall_through { first } else { index + 1 }
}

/// Whether it is the default, and no other case value stands with it.
#[tactic(auto, using(crate::proofs::SwitchRows::alone_row, crate::proofs::SwitchRows::signed_other, crate::proofs::SwitchRows::unsigned_other))]
fn is_default_alone(waiting: &[SwitchCase], value: SwitchValue) -> bool
    ensures { result ≡ stands_alone (case_values_of waiting.now) (case_value_form value) }
{
    match value {
        SwitchValue::Default => waiting.is_empty(),
        SwitchValue::I32(_) => false,
        SwitchValue::U32(_) => false,
    }
}

/// The values of a group up to the colon. A default that stands alone has no `case`.
fn write_group_start<W: TextSink>(
    waiting: &[SwitchCase],
    value: SwitchValue,
    out: &mut Output<'_, W>,
)
    ensures { Writes W.text W.failures out.old out.new
        (group_start (case_values_of waiting.now) (case_value_form value)) }
{
    if is_default_alone(waiting, value) {
        out.put("default:");
        return;
    }
    out.put("case ");
    write_waiting(waiting, out);
    write_case_value(value, out);
    out.put(":");
}

/// The values of these cases, each with what stands between it and the next one.
#[tactic(auto, using(naga_words::proofs::Writing::loop_writes, crate::proofs::SwitchRows::waiting_more, crate::proofs::SwitchRows::waiting_none))]
fn write_waiting<W: TextSink>(waiting: &[SwitchCase], out: &mut Output<'_, W>)
    ensures { Writes W.text W.failures out.old out.new (waiting_text (case_values_of waiting.now)) }
{
    for case in waiting {
        write_case_value(case.value, out);
        out.put(", ");
    }
}

/// A case value. A signed number has no suffix.
#[tactic(auto, using(crate::proofs::SwitchRows::signed_row, crate::proofs::SwitchRows::unsigned_row, crate::proofs::SwitchRows::default_case_value_row))]
fn write_case_value<W: TextSink>(value: SwitchValue, out: &mut Output<'_, W>)
    ensures { Writes W.text W.failures out.old out.new (case_value_text (case_value_form value)) }
{
    match value {
        SwitchValue::I32(number) => write_number(number, "", out),
        SwitchValue::U32(number) => write_number(number, "u", out),
        SwitchValue::Default => out.put("default"),
    }
}
