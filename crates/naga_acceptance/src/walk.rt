//! A walk over the statements of a body in the order of the text, those in blocks too, up to the
//! first that does not get what is asked.

ghost use Rattle.std.specs.Prelude.{◌≡◌, ◌∷◌, true, false};
ghost use Rattle.std.specs.Result.{result_err};
ghost use Rattle.naga_ir.specs.StatementViews.{cases_of, tree_of};
ghost use Rattle.naga_acceptance.specs.KnownTypes.{known_types};
ghost use Rattle.naga_acceptance.specs.TextOrder.{case_statements, is_in_range, is_met, is_sound};
ghost use Rattle.naga_acceptance.specs.TextOrder.{numbered};
ghost use Rattle.naga_acceptance.specs.TextOrder.{statements_in, statements_inside, text_order};

use crate::parts::Known;
use crate::ranges::statements::own_in_range;
use crate::statements::own_is_sound;
use naga_ir::{Block, Function, Module, Statement, SwitchCase};

/// What is asked of each statement of a body.
#[derive(Clone, Copy)]
pub(crate) enum StatementTest<'a> {
    /// That it names only so many functions, from the first on, and so many expressions.
    InRange {
        callees: usize,
        expressions: usize,
    },
    /// That it gets what it needs.
    Sound {
        module: &'a Module,
        function: &'a Function,
        known: Known<'a>,
    },
}

pub(crate) fn range_test(callees: usize, expressions: usize) -> StatementTest<'static>
    ensures { is_met result ≡ is_in_range callees expressions }
{
    StatementTest::InRange {
        callees,
        expressions,
    }
}

pub(crate) fn sound_test<'a>(
    module: &'a Module,
    function: &'a Function,
    known: Known<'a>,
) -> StatementTest<'a>
    ensures { is_met result ≡ is_sound «module».now function.now (known_types known.entry) }
{
    StatementTest::Sound {
        module,
        function,
        known,
    }
}

/// Whether a statement by itself, its blocks left out, gets what is asked.
fn is_met(test: StatementTest<'_>, breaks: bool, continues: bool, statement: &Statement) -> bool
    ensures { result ≡ is_met test.entry
        (record { breaks = breaks; continues = continues; tree = tree_of statement.now }) }
{
    match test {
        StatementTest::InRange {
            callees,
            expressions,
        } => own_in_range(callees, expressions, statement),
        StatementTest::Sound {
            module,
            function,
            known,
        } => own_is_sound(module, function, known, breaks, continues, statement),
    }
}

/// Goes through a statement, which has this number, and those in its blocks. An error is the number
/// of the first that does not get what is asked, and else the next number is given.
#[cycle(statements)]
#[tactic(auto, using(crate::proofs::Walking::numbered_append))]
fn walk_statement(
    test: StatementTest<'_>,
    breaks: bool,
    continues: bool,
    statement: &Statement,
    number: usize,
) -> Result<usize, usize>
    ensures { result ≡ numbered (is_met test.entry) number
        (record { breaks = breaks; continues = continues; tree = tree_of statement.now }
        ∷ statements_inside breaks continues (tree_of statement.now)) }
{
    if !is_met(test, breaks, continues, statement) {
        return Err(number);
    }
    let next = number.wrapping_add(1);
    match statement {
        Statement::Block(block) => walk_block(test, breaks, continues, block, next),
        Statement::If { accept, reject, .. } => {
            match walk_block(test, breaks, continues, accept, next) {
                Ok(next) => walk_block(test, breaks, continues, reject, next),
                Err(unmet) => Err(unmet),
            }
        }
        Statement::Switch { cases, .. } => walk_cases(test, continues, cases, next),
        Statement::Loop {
            body,
            continuing,
            ..
        } => match walk_block(test, true, true, body, next) {
            Ok(next) => walk_block(test, false, false, continuing, next),
            Err(unmet) => Err(unmet),
        },
        _ => Ok(next),
    }
}

#[cycle(statements)]
fn walk_block(
    test: StatementTest<'_>,
    breaks: bool,
    continues: bool,
    block: &Block,
    first: usize,
) -> Result<usize, usize>
    ensures { result ≡ numbered (is_met test.entry) first
        (statements_in breaks continues block.now) }
{
    let mut number = first;
    for statement in block.as_slice() {
        match walk_statement(test, breaks, continues, statement, number) {
            Ok(next) => number = next,
            Err(unmet) => return Err(unmet),
        }
    }
    Ok(number)
}

#[cycle(statements)]
fn walk_cases(
    test: StatementTest<'_>,
    continues: bool,
    cases: &[SwitchCase],
    first: usize,
) -> Result<usize, usize>
    ensures { result ≡ numbered (is_met test.entry) first
        (case_statements true continues (cases_of cases.now)) }
{
    let mut number = first;
    for case in cases {
        match walk_block(test, true, continues, &case.body, number) {
            Ok(next) => number = next,
            Err(unmet) => return Err(unmet),
        }
    }
    Ok(number)
}

/// The number of the first statement of a body, in the order of the text, that does not get what is
/// asked. Those in blocks are counted too, from 0, and modulo 2^64.
pub(crate) fn first_unmet(test: StatementTest<'_>, body: &Block) -> Option<usize>
    ensures { result ≡ result_err (numbered (is_met test.entry) 0 (text_order body.now)) }
{
    match walk_block(test, false, false, body, 0) {
        Ok(_) => None,
        Err(unmet) => Some(unmet),
    }
}
