//! What WGSL text is: its tokens, its trees, and how trees are printed. The public functions are
//! laws.
#![tactic(auto)]

ghost use Rattle.std.specs.Prelude.{◌≡◌, ℕ, List, [], ◌∷◌, ◌++◌};
ghost use Rattle.wgsl_text.specs.Building.{WordsAreTypes, CalledWordsAreExpressions};
ghost use Rattle.wgsl_text.specs.Examples.{WorkedPrograms};
ghost use Rattle.wgsl_text.specs.Token.{Token, Piece};
ghost use Rattle.wgsl_text.specs.Types.{TypeSpecifier, IsType};
ghost use Rattle.wgsl_text.specs.Expressions.{Expression, IsCallee, IsExpression};
ghost use Rattle.wgsl_text.specs.Statements.{Statement, IsStatement};
ghost use Rattle.wgsl_text.specs.Functions.{EntryPoint, Function, IsEntryPoint, IsFunction};
ghost use Rattle.wgsl_text.specs.Declarations.{Program, IsProgram};
ghost use Rattle.wgsl_text.specs.LargeExamples.{LargePrograms};
ghost use Rattle.wgsl_text.specs.Operators.{OperatorWords};
ghost use Rattle.wgsl_text.specs.Reading.{AreReadOnce, ReadsType, ReadsExpression, ReadsStatement};
ghost use Rattle.wgsl_text.specs.Reading.{ReadsFunction, Reads, HasOneReading, printed_type};
ghost use Rattle.wgsl_text.specs.Reading.{printed_expression, printed_statement, printed_function};
ghost use Rattle.wgsl_text.specs.Reading.{ReadsEntryPoint, printed_entry_point, printed_program};
ghost use Rattle.wgsl_text.specs.NotInGrammar.{TextsNotInGrammar};
ghost use Rattle.wgsl_text.specs.Rows.{TypeRows, OperatorRows, AccessRows, LineRows};
ghost use Rattle.wgsl_text.specs.Spelled.{SpelledPieces};
ghost use Rattle.wgsl_text.specs.Spelling.{Spells, Begins};
ghost use Rattle.wgsl_text.specs.Text.{text, tokens};
ghost use Rattle.wgsl_text.specs.ValueWords.{ValueWords};

/// The tokens of a text are those of its front, and then those of what stands after it. The front
/// is a blank, or the longest that spells a token, or a byte that begins none.
pub fn longest_token()
    ensures nothing { tokens [] ≡ [] }
    ensures front { (b : ℕ) (bytes : List ℕ) → Begins b bytes }
    ensures alone { (bytes : List ℕ) (t : Token) → Spells bytes t → tokens bytes ≡ t ∷ [] }
{}

/// The text of a type is read as that type and no other, and no tokens are read as two types.
pub fn one_reading_of_a_type()
    ensures printed { (t : TypeSpecifier) → IsType t → HasOneReading ReadsType (printed_type t) t }
    ensures unique { AreReadOnce ReadsType }
{}

/// The text of an expression is read as that expression and no other, and no tokens are read as two
/// expressions.
pub fn one_reading_of_an_expression()
    ensures printed { (e : Expression) → IsExpression e →
        HasOneReading ReadsExpression (printed_expression e) e }
    ensures unique { AreReadOnce ReadsExpression }
{}

/// The text of a statement, at any level, is read as that statement and no other, and no tokens are
/// read as two statements.
pub fn one_reading_of_a_statement()
    ensures printed { (s : Statement) → IsStatement s → (level : ℕ) →
        HasOneReading ReadsStatement (printed_statement s level) s }
    ensures unique { AreReadOnce ReadsStatement }
{}

/// The text of a function is read as that function and no other, and no tokens are read as two
/// functions.
pub fn one_reading_of_a_function()
    ensures printed { (f : Function) → IsFunction f →
        HasOneReading ReadsFunction (printed_function f) f }
    ensures unique { AreReadOnce ReadsFunction }
{}

/// The text of an entry point is read as that entry point and no other, and no tokens are read as
/// two entry points.
pub fn one_reading_of_an_entry_point()
    ensures printed { (e : EntryPoint) → IsEntryPoint e →
        HasOneReading ReadsEntryPoint (printed_entry_point e) e }
    ensures unique { AreReadOnce ReadsEntryPoint }
{}

/// The text of a program is read as that program and no other, and no tokens are read as two
/// programs.
pub fn one_reading_of_a_program()
    ensures printed { (program : Program) → IsProgram program →
        HasOneReading Reads (printed_program program) program }
    ensures unique { AreReadOnce Reads }
{}

/// What is a type may be called: a type's value is made by a call of it.
pub fn types_are_callees()
    ensures { (t : TypeSpecifier) → IsType t → IsCallee t }
{}

/// Words are types, and words with the parts that they take are.
pub fn words_are_types()
    ensures { WordsAreTypes }
{}

/// A call of what may be called, a word that is not reserved or a type, is an expression where its
/// operands are, and a statement; each built-in word may be called, and each type.
pub fn called_words_are_expressions()
    ensures { CalledWordsAreExpressions }
{}

/// The text of appended pieces is the appended texts.
pub fn text_of_joined()
    ensures { (first second : List Piece) → text (first ++ second) ≡ text first ++ text second }
{}

/// The tables that the grammar shares with values of the IR have the words that `wgsl_words` gives
/// these values, and no others.
pub fn words_of_values()
    ensures { ValueWords }
{}

/// Words that are operators', and words that are not.
pub fn operators_are_told()
    ensures { OperatorWords }
{}

/// The words, keywords, signs, suffixes and attributes of the grammar, spelled out.
pub fn words_are_spelled()
    ensures { SpelledPieces }
{}

/// The texts of worked programs, byte for byte.
pub fn worked_programs()
    ensures texts { WorkedPrograms }
    ensures large { LargePrograms }
{}

/// A text for each row of the grammar, byte for byte.
pub fn row_texts()
    ensures types { TypeRows }
    ensures operators { OperatorRows }
    ensures accesses { AccessRows }
    ensures lines { LineRows }
{}

/// Texts that are no type, no expression or no program.
pub fn texts_not_in_grammar()
    ensures { TextsNotInGrammar }
{}
