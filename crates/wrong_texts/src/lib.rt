//! Wrong texts that the promise of the writer refuses by its own definitions: the grammar has no
//! tree for them, a name in them stands for nothing, or they do something else than the module.
//! Each stands beside the right text of its module, which keeps the whole promise. The public
//! functions are laws.
#![tactic(auto)]

ghost use Rattle.wrong_texts.specs.BreakIfFirst.{BreakIfFirst};
ghost use Rattle.wrong_texts.specs.ComponentOfNegation.{ComponentOfNegation};
ghost use Rattle.wrong_texts.specs.Modules.{Rest};
ghost use Rattle.wrong_texts.specs.NamesAfterLoops.{NamesAfterLoops};
ghost use Rattle.wrong_texts.specs.PointerArguments.{PointerArguments};
ghost use Rattle.wrong_texts.specs.Promise.{WritingKeepsPromise};
ghost use Rattle.wrong_texts.specs.SelectOperands.{SelectOperands};
ghost use Rattle.wrong_texts.specs.SiblingNames.{SiblingNames};
ghost use Rattle.wrong_texts.specs.SkippedNames.{SkippedNames};

/// What a call of the writer appends that promises faithful writing, as `write` does, and answers
/// `Ok` keeps the promise. So no such call appends one of the wrong texts here for its module.
pub fn writing_keeps_the_promise()
    ensures { WritingKeepsPromise }
{}

/// A `break if` stands in front of another statement of `continuing`: the text has no reading.
pub fn break_if_first_is_refused()
    ensures { (r : Rest) → BreakIfFirst r }
{}

/// A component is taken of a negation that has no parentheses of its own: the text has no reading.
pub fn component_of_negation_is_refused()
    ensures { (r : Rest) → ComponentOfNegation r }
{}

/// The operands of a `select` stand as in the module, accept before reject. Under a meaning that
/// chooses as WGSL does the text returns the other value.
pub fn select_operands_are_refused()
    ensures { (r : Rest) → SelectOperands r }
{}

/// A component of what an argument points to is taken of the argument itself, without `*`. The text
/// is stuck where the module reads the component.
pub fn pointer_argument_is_refused()
    ensures { (r : Rest) → PointerArguments r }
{}

/// In the `else` a `let` binds `_e2` to `_e2`, which the other branch bound: the name stands for
/// nothing there.
pub fn sibling_name_is_refused()
    ensures { (r : Rest) → SiblingNames r }
{}

/// After a loop a name is used that its body gave: the name stands for nothing there.
pub fn names_after_loops_are_refused()
    ensures { (r : Rest) → NamesAfterLoops r }
{}

/// In `continuing` the name of a `let` of constants is used that stands after a `continue`: it
/// stands for nothing there.
pub fn skipped_names_are_refused()
    ensures { (r : Rest) → SkippedNames r }
{}
