//! Whether case values of a switch, in any order, differ: their numbers are sorted a part at a
//! time.

ghost use Rattle.std.specs.Prelude.{◌≡◌, ◌<◌, ◌≤◌, ◌%◌, ◌++◌, length, take, nat_lt, MatchBool};
ghost use Rattle.std.specs.Prelude.{false};
ghost use Rattle.std.specs.List.Sorted.{IsNonDecreasing};
ghost use Rattle.naga_ir.specs.StatementViews.{cases_of};
ghost use Rattle.module_semantics.specs.acceptance.StatementsFit.{case_values_differ};
ghost use Rattle.naga_acceptance.specs.CaseValues.{AreApart, AreMarked, AreOnce, IsTwice};
ghost use Rattle.naga_acceptance.specs.CaseValues.{number_of};
ghost use Rattle.naga_acceptance.specs.CaseValues.{numbers_of, has_common, times};

use naga_ir::{SwitchCase, SwitchValue};

/// How many case values are sorted at once.
const SORTED_CASE_VALUES: usize = 4096;

/// How many cells there are at which numbers are marked.
const CELLS: usize = 32_768;

/// A number of its own for each case value.
fn number_of(case_value: SwitchValue) -> u64
    ensures { result ≡ number_of case_value }
{
    match case_value {
        SwitchValue::I32(value) => {
            let sign = if value < 0 { 2 } else { 1 };
            3 * u64::from(value.unsigned_abs()) + sign
        }
        SwitchValue::U32(value) => 3 * u64::from(value) + 3,
        SwitchValue::Default => 0,
    }
}

/// The numbers of the case values, in order, and zeros after them.
fn numbers_of(cases: &[SwitchCase]) -> [u64; SORTED_CASE_VALUES]
    requires { length cases.now ≤ 4096 }
    ensures numbers { take (length cases.now) result ≡ numbers_of (cases_of cases.now) }
    ensures size { length result ≡ 4096 }
{
    let mut numbers = [0; SORTED_CASE_VALUES];
    for index in 0..cases.len() {
        numbers[index] = number_of(cases[index].value);
    }
    numbers
}

/// Whether a number stands beside itself.
fn has_equal_neighbours(numbers: &[u64]) -> bool
    ensures { MatchBool result (IsTwice numbers.now) (AreApart numbers.now) }
{
    for index in 1..numbers.len() {
        if numbers[index - 1] == numbers[index] {
            return true;
        }
    }
    false
}

/// Where a number is marked.
fn cell_of(number: u64) -> usize
    ensures cell { result ≡ number % CELLS }
    ensures within { result < CELLS }
{
    (number % CELLS as u64) as usize
}

/// The marks of these numbers, which tell of most others at once that they are none of these.
fn marks_of(numbers: &[u64]) -> [bool; CELLS]
    ensures marks { AreMarked numbers.now result }
    ensures size { length result ≡ CELLS }
{
    let mut marks = [false; CELLS];
    for number in numbers {
        marks[cell_of(*number)] = true;
    }
    marks
}

/// Whether the number is one of these, which ascend and have these marks.
fn is_among(numbers: &[u64], marks: &[bool], number: u64) -> bool
    requires rise { IsNonDecreasing numbers.now }
    requires marks { AreMarked numbers.now marks.now }
    requires size { length marks.now ≡ CELLS }
    ensures { result ≡ nat_lt 0 (times number numbers.now) }
{
    if !marks[cell_of(number)] {
        return false;
    }
    numbers.binary_search(&number).is_ok()
}

/// Whether the number of a case value is one of these, which ascend and have these marks.
fn any_among(numbers: &[u64], marks: &[bool], cases: &[SwitchCase]) -> bool
    requires rise { IsNonDecreasing numbers.now }
    requires marks { AreMarked numbers.now marks.now }
    requires size { length marks.now ≡ CELLS }
    ensures { result ≡ has_common numbers.now (numbers_of (cases_of cases.now)) }
{
    for case in cases {
        if is_among(numbers, marks, number_of(case.value)) {
            return true;
        }
    }
    false
}

/// The same, by marks of its own. Their table stays out of the frame of its caller.
#[inline(never)]
fn common_by_marks(numbers: &[u64], cases: &[SwitchCase]) -> bool
    requires { IsNonDecreasing numbers.now }
    ensures { result ≡ has_common numbers.now (numbers_of (cases_of cases.now)) }
{
    let marks = marks_of(numbers);
    any_among(numbers, &marks, cases)
}

/// Whether the number of a case value is one of these, which ascend. They are marked only where
/// there are case values.
fn has_common(numbers: &[u64], cases: &[SwitchCase]) -> bool
    requires { IsNonDecreasing numbers.now }
    ensures { result ≡ has_common numbers.now (numbers_of (cases_of cases.now)) }
{
    if cases.is_empty() {
        return false;
    }
    common_by_marks(numbers, cases)
}

/// Whether the first case values differ from one another and from those after them. Its table stays
/// out of the frames of its callers, which go as deep as blocks are nested.
#[inline(never)]
fn first_differ(first: &[SwitchCase], following: &[SwitchCase]) -> bool
    requires { length first.now ≤ 4096 }
    ensures { MatchBool result
        (AreOnce (numbers_of (cases_of first.now)) (numbers_of (cases_of following.now)))
        (case_values_differ (cases_of (first.now ++ following.now)) ≡ false) }
{
    let mut table = numbers_of(first);
    let numbers = &mut table[..first.len()];
    numbers.sort_unstable();
    !has_equal_neighbours(numbers) && !has_common(numbers, following)
}

/// Whether no case value is repeated, in whatever order they stand.
///
/// It takes no memory: 4,096 case values at a time are sorted on the stack, and all later ones are
/// looked for among them. So `n` case values take `n log n` steps where there are no more than
/// 4,096. More, in whatever order, take a sort for each 4,096, and `n² / 8,192` looks at a mark, of
/// which one in eight needs a search of 13 comparisons, unless case values are chosen to share
/// their marks. Since those that were sorted differ, no case value is looked for more than 2^21
/// times.
pub(crate) fn none_is_repeated(cases: &[SwitchCase]) -> bool
    ensures { result ≡ case_values_differ (cases_of cases.now) }
{
    let mut rest = cases;
    while !rest.is_empty() {
        let (first, following) = rest.split_at(rest.len().min(SORTED_CASE_VALUES));
        if !first_differ(first, following) {
            return false;
        }
        rest = following;
    }
    true
}
