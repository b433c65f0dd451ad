//! The run of a module, the run of the text that is written for it, and why they agree.
#![tactic(auto)]

ghost use Rattle.shader_runs.specs.Correct.{OneRunsAlike, RunsAlike};
ghost use Rattle.shader_runs.specs.Correct.{HasTypedMeaning, HasTypedWorld};
ghost use Rattle.shader_runs.specs.Correct.{ConstantsAreComputed, InitialisersAreAlike};
ghost use Rattle.shader_runs.specs.Identifiers.{BindsAsMeant, FunctionBindsAsMeant};
ghost use Rattle.shader_runs.specs.Identifiers.{FunctionResolvesAsMeant, ResolvesAsMeant};
ghost use Rattle.shader_runs.specs.Ends.{EndsAreReached};
ghost use Rattle.shader_runs.specs.Points.{PointsAgree};
ghost use Rattle.shader_runs.specs.Progress.{RunsAreNotStuck};
ghost use Rattle.shader_runs.specs.Results.{ResultsAreReturned};
ghost use Rattle.shader_runs.specs.Rows.{RowsHold};
ghost use Rattle.shader_runs.specs.PlaceRows.{PlaceRowsHold};
ghost use Rattle.shader_runs.specs.ScopeRules.{ScopeCheckIsTheRules};
ghost use Rattle.shader_runs.specs.ScopeFaults.{ScopeFaultsAreFound};
ghost use Rattle.shader_runs.specs.ConstantRows.{ConstantRowsHold};
ghost use Rattle.shader_runs.specs.StatementRows.{StatementRowsHold};
ghost use Rattle.shader_runs.specs.VariableRows.{VariableRowsHold};

/// A module's functions and entry points and their texts make the same events and end alike.
/// So does one after its callees, whatever stands after it and between it and them.
pub fn runs_alike()
    ensures whole { RunsAlike }
    ensures one { OneRunsAlike }
{}

/// At each point that a run passes, inside branches, cases, blocks and each turn of a loop too,
/// names in scope have the values that the module uses, and what is written without a name still
/// gives them.
pub fn points_agree()
    ensures { PointsAgree }
{}

/// In a module whose conditions, selectors, pointers and jumps are well-formed too, no call is
/// stuck: it returns, or ends by a discard, out of turns, for want of a callee's result or at an
/// answer of a wrong type.
pub fn runs_are_not_stuck()
    ensures { RunsAreNotStuck }
{}

/// Where each function with a result returns a value on all paths, no call misses a result.
pub fn results_are_returned()
    ensures { ResultsAreReturned }
{}

/// The check of scope holds of a function exactly where the rules of scope do.
pub fn scope_check_is_the_rules()
    ensures { ScopeCheckIsTheRules }
{}

/// The rules of scope fail in a function exactly where some statement breaks one, by the use of a
/// handle or by giving it, or where the first value of some local does.
pub fn scope_faults_are_found()
    ensures { ScopeFaultsAreFound }
{}

/// Each identifier and each word of a text stands for what the module means by it, where the check
/// of scope holds.
/// So it is in one function, whatever stands in the others.
pub fn resolves_as_meant()
    ensures whole { ResolvesAsMeant }
    ensures one { FunctionResolvesAsMeant }
{}

/// The `let`s of a text are those of the handles that the module binds, under their names.
pub fn binds_as_meant()
    ensures whole { BindsAsMeant }
    ensures one { FunctionBindsAsMeant }
{}

/// No end is missed by these points: a list that is done passes its end, and a return, discard,
/// break or continue has its point in front of it.
pub fn ends_are_reached()
    ensures { EndsAreReached }
{}

/// What a module computes for its named constants are the values of their initialisers.
pub fn constants_are_computed()
    ensures { ConstantsAreComputed }
{}

/// An initialiser has the value in a text that it has in the module.
pub fn initialisers_are_alike()
    ensures { InitialisersAreAlike }
{}

/// What the first law asks of the meaning can be met.
pub fn has_typed_meaning()
    ensures { HasTypedMeaning }
{}

/// What it asks of the world can be met: by one world for all bounds on loop turns, all starts and
/// all pasts.
pub fn has_typed_world()
    ensures { HasTypedWorld }
{}

/// The worked functions run as they are said to, and the texts of other writers do something else.
pub fn rows_hold()
    ensures { RowsHold }
{}

/// The steps into worked places are told apart, and a run is stuck at a step that isn't there.
pub fn place_rows_hold()
    ensures { PlaceRowsHold }
{}

/// A worked module with named constants and an override, and texts with other initialisers.
pub fn constant_rows_hold()
    ensures { ConstantRowsHold }
{}

/// A worked module whose variable holds a pointer, and texts that declare it, or what it points to,
/// with another space.
pub fn variable_rows_hold()
    ensures { VariableRowsHold }
{}

/// Worked functions for kinds of statements run as they are said to: atomics, images, collectives,
/// barriers, ray traces, jumps, calls through several functions, discards and loops that don't end.
pub fn statement_rows_hold()
    ensures { StatementRowsHold }
{}
