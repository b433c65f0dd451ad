//! The shapes of JSON that values of Rust's types have: numbers, lists, objects, and enums whose
//! variant is a text or the only member of an object.

ghost use Rattle.std.specs.Prelude.{◌≡◌, ℕ, ℤ, List, [], map, Bool, true, false, Option, None, Some, option_map, ⊤};
ghost use Rattle.std.specs.Prelude.{IsTrue, MatchResult, string_bytes};
ghost use Rattle.json.specs.Json.{Json, null as no_payload};
ghost use Rattle.json.specs.Find.{as_bool, as_array, as_object, as_str, as_number, is_null};
ghost use Rattle.json.specs.Value.{value_view, items_view, members_view};
ghost use Rattle.naga_json.specs.Said.{Gives, IsRefusal, same, unseen, texts, among, only, only_beside, is_object};
ghost use Rattle.naga_json.specs.Said.{member_said, member_or, list_said, option_said, all_named, only_member, last_member};
ghost use Rattle.naga_json.specs.Said.{variant_of, entry_of, unit_said, word_said, variant_said, rows, IsStep};
ghost use Rattle.naga_json.specs.Said.{known, any_found, has_members};
ghost use Rattle.naga_json.specs.Numbers.{whole_said, unsigned_said, integer_said, signed_said};
ghost use Rattle.naga_json.specs.Numbers.{is_minus_zero};

use crate::error::{JsonKind, Problem, ReadError, told_name};
use json::Value;
use naga_ir::{Arena, Item, ItemIndex};
use std::alloc::Global;

/// What is read from a JSON value.
pub(crate) trait FromJson: Sized + Drop {
    /// What contracts see of it: not where it lies in memory.
    ghost Seen: { Type 0 };

    /// How they see it.
    ghost seen: { Self → Seen };

    /// What a value says.
    ghost said: { Json → Option Seen };

    /// Reads it.
    fn from_json(alloc: Global, value: &Value) -> Result<Self, ReadError>
        ensures { Gives seen (said (value_view value.now)) result };
}

/// What an absent member stands for.
pub(crate) trait MayBeAbsent: FromJson {
    /// What an absent member stands for.
    ghost absent_said: { Self };

    /// What an absent member stands for.
    fn absent(alloc: Global) -> Self
        ensures { result ≡ absent_said };
}

/// An enum of which some variant has payload.
pub(crate) trait Variants: Sized + Drop {
    /// Which variant it is.
    type Name: Copy + 'static;

    /// What contracts see of it.
    ghost Sight: { Type 0 };

    /// How they see it.
    ghost sight: { Self → Sight };

    /// The table of names.
    ghost table: { List (List ℕ × Self.Name) };

    /// What the payload of a variant says.
    ghost payload_said: { Self.Name → Json → Option Sight };

    /// What each name stands for.
    fn names() -> &'static [(&'static str, Self::Name)]
        ensures { rows result.now ≡ table };

    /// Reads the payload of this variant. For a variant without payload it is null.
    fn from_payload(alloc: Global, variant: Self::Name, payload: &Value) -> Result<Self, ReadError>
        ensures { Gives sight (payload_said variant (value_view payload.now)) result };
}

/// The error of a value that is something else than is wanted.
pub(crate) fn mistyped(alloc: Global, wanted: JsonKind) -> ReadError {
    ReadError::at(alloc, Problem::Mistyped(wanted))
}

/// What was read as the member or the variant of this name.
pub(crate) fn in_member<T>(
    alloc: Global,
    name: &str,
    read: Result<T, ReadError>,
) -> Result<T, ReadError>
    ensures { IsStep read result }
{
    match read {
        Ok(value) => Ok(value),
        Err(error) => Err(error.within(alloc, name)),
    }
}

/// What was read as the item at `index` of a list.
pub(crate) fn in_item<T>(
    alloc: Global,
    index: usize,
    read: Result<T, ReadError>,
) -> Result<T, ReadError>
    ensures { IsStep read result }
{
    match read {
        Ok(value) => Ok(value),
        Err(error) => match format!(in alloc; "[{index}]") {
            Ok(step) => Err(error.within(alloc, step.as_str())),
            Err(_) => Err(ReadError::OutOfMemory),
        },
    }
}

/// The member of this name, read.
pub(crate) fn member<T: FromJson>(alloc: Global, value: &Value, name: &str) -> Result<T, ReadError>
    ensures { Gives T.seen (member_said T.said name.now (value_view value.now)) result }
{
    if !is_object(value) {
        return Err(mistyped(alloc, JsonKind::Object));
    }
    let read = match value.get(name) {
        Some(found) => T::from_json(alloc, found),
        None => Err(missing(alloc)),
    };
    in_member(alloc, name, read)
}

/// The member of this name, read, or what its absence stands for.
pub(crate) fn optional_member<T: MayBeAbsent>(
    alloc: Global,
    value: &Value,
    name: &str,
) -> Result<T, ReadError>
    ensures { Gives T.seen (member_or (T.seen T.absent_said) T.said name.now (value_view value.now)) result }
{
    if !is_object(value) {
        return Err(mistyped(alloc, JsonKind::Object));
    }
    match value.get(name) {
        Some(found) => in_member(alloc, name, T::from_json(alloc, found)),
        None => Ok(T::absent(alloc)),
    }
}

/// The error of a value that is absent.
pub(crate) fn missing(alloc: Global) -> ReadError {
    ReadError::at(alloc, Problem::Missing)
}

/// Puts the member of this name, where it is there, in the place of what `slot` holds.
pub(crate) fn fill<T: FromJson>(
    alloc: Global,
    value: &Value,
    name: &str,
    slot: &mut T,
) -> Result<(), ReadError>
    ensures { Gives (λ _. T.seen slot.new)
        (member_or (T.seen slot.old) T.said name.now (value_view value.now)) result }
{
    if !is_object(value) {
        return Err(mistyped(alloc, JsonKind::Object));
    }
    if let Some(found) = value.get(name) {
        *slot = in_member(alloc, name, T::from_json(alloc, found))?;
    }
    Ok(())
}

/// Refuses an object with a member of another name than these: it says what would be lost.
pub(crate) fn expect_members(alloc: Global, value: &Value, names: &[&str]) -> Result<(), ReadError>
    ensures { Gives unseen (only (texts names.now) (value_view value.now)) result }
{
    expect_members_beside(alloc, value, names, &[])
}

/// The same, where members of some more names are let be.
pub(crate) fn expect_members_beside(
    alloc: Global,
    value: &Value,
    names: &[&str],
    let_be: &[&str],
) -> Result<(), ReadError>
    ensures { Gives unseen
        (only_beside (texts names.now) (texts let_be.now) (value_view value.now)) result }
{
    let members = members_of(alloc, value)?;
    for member in members {
        if !is_among(member.0, names) && !is_among(member.0, let_be) {
            let least = least_unknown(members, names, let_be, member.0);
            return Err(unknown_member(alloc, least));
        }
    }
    Ok(())
}

/// The least of the members' names that are neither these nor let be, of which `found` is one.
#[cold]
fn least_unknown<'a>(
    members: &Vec<Member<'a>>,
    names: &[&str],
    let_be: &[&str],
    found: &'a str,
) -> &'a str {
    let mut least = found;
    for member in members {
        let is_known = is_among(member.0, names) || is_among(member.0, let_be);
        if !is_known && member.0 < least {
            least = member.0;
        }
    }
    least
}

/// Whether the name is one of these.
fn is_among(name: &str, names: &[&str]) -> bool
    ensures { result ≡ among (texts names.now) name.now }
{
    for known in names {
        if *known == name {
            return true;
        }
    }
    false
}

/// Refuses a value that is not null, where what it says has no place in a module here.
pub(crate) fn expect_null(alloc: Global, value: &Value) -> Result<(), ReadError>
    ensures { Gives unseen (unit_said tt (value_view value.now)) result }
{
    if value.is_null() {
        Ok(())
    } else {
        Err(ReadError::at(alloc, Problem::Unsupported))
    }
}

/// Refuses an object that has members, but none of these: it is another thing than was meant.
pub(crate) fn expect_known(alloc: Global, value: &Value, names: &[&str]) -> Result<(), ReadError>
    ensures { Gives unseen (known (texts names.now) (value_view value.now)) result }
{
    let members = members_of(alloc, value)?;
    if has_members(members) && !has_any(value, names) {
        return Err(ReadError::at(alloc, Problem::NoKnownMember));
    }
    Ok(())
}

/// Whether an object has members.
pub(crate) fn has_members(members: &Vec<Member>) -> bool
    ensures { result ≡ has_members (members_view members.now.items) }
{
    match last_member(members) {
        Some(_) => true,
        None => false,
    }
}

/// Whether one of these members is there.
fn has_any(value: &Value, names: &[&str]) -> bool
    ensures { result ≡ any_found (texts names.now) (value_view value.now) }
{
    for name in names {
        if value.get(*name).is_some() {
            return true;
        }
    }
    false
}

/// A member of an object: its name and its value.
pub(crate) type Member<'a> = (&'a str, Value<'a>);

/// The members of an object, in the order of the text. Of a name that comes twice, the last counts.
pub(crate) fn members_of<'v, 'a>(
    alloc: Global,
    value: &'v Value<'a>,
) -> Result<&'v Vec<Member<'a>>, ReadError>
    ensures { Gives (λ v. members_view v.now.items) (as_object (value_view value.now)) result }
{
    match value {
        Value::Object(members) => Ok(members),
        _ => Err(mistyped(alloc, JsonKind::Object)),
    }
}

/// The variant of an enum: its name, and its payload where it has some.
#[derive(Clone, Copy)]
pub(crate) struct Variant<'v, 'a> {
    /// Its name.
    pub name: &'a str,
    /// Its payload; where there is only a name, null.
    pub payload: &'v Value<'a>,
}

/// The variant that a value names; where there is only a name, with null for its payload.
pub(crate) fn named_variant<'v, 'a>(
    value: &'v Value<'a>,
    null: &'v Value<'a>,
) -> Option<Variant<'v, 'a>>
    requires { value_view null.now ≡ no_payload }
    ensures { option_map (λ v. (v.name.now, value_view v.payload.now)) result
        ≡ variant_of (value_view value.now) }
{
    match value {
        Value::String(name) => Some(Variant {
            name: *name,
            payload: null,
        }),
        Value::Object(members) => only_member(members),
        _ => None,
    }
}

/// The one member of an object, as a variant. A name that comes twice is one member.
fn only_member<'v, 'a>(members: &'v Vec<Member<'a>>) -> Option<Variant<'v, 'a>>
    ensures { option_map (λ v. (v.name.now, value_view v.payload.now)) result
        ≡ only_member (members_view members.now.items) }
{
    let last = last_member(members)?;
    if all_named(last.name, members) {
        Some(last)
    } else {
        None
    }
}

/// The last member of an object, as a variant.
fn last_member<'v, 'a>(members: &'v Vec<Member<'a>>) -> Option<Variant<'v, 'a>>
    ensures { option_map (λ v. (v.name.now, value_view v.payload.now)) result
        ≡ last_member (members_view members.now.items) }
{
    match members.last() {
        Some(last) => Some(Variant {
            name: last.0,
            payload: &last.1,
        }),
        None => None,
    }
}

/// Whether each member has this name.
fn all_named(name: &str, members: &Vec<Member>) -> bool
    ensures { result ≡ all_named name.now (members_view members.now.items) }
{
    for member in members {
        if member.0 != name {
            return false;
        }
    }
    true
}

/// The variant of an enum, read.
pub(crate) fn read_variant<T: Variants + 'static>(
    alloc: Global,
    value: &Value,
) -> Result<T, ReadError>
    ensures { Gives T.sight (variant_said T.table T.payload_said (value_view value.now)) result }
{
    let null = Value::Null;
    let Some(found) = named_variant(value, &null) else {
        return Err(mistyped(alloc, JsonKind::Variant));
    };
    let which = entry_named(alloc, found.name, T::names())?;
    in_member(
        alloc,
        found.name,
        T::from_payload(alloc, which, found.payload),
    )
}

/// The variant, which has no payload.
pub(crate) fn unit<T: Drop>(alloc: Global, payload: &Value, variant: T) -> Result<T, ReadError>
    ensures { Gives same (unit_said variant (value_view payload.now)) result }
{
    if payload.is_null() {
        Ok(variant)
    } else {
        Err(mistyped(alloc, JsonKind::Null))
    }
}

/// What the variant stands for in a table of an enum whose variants have no payload.
pub(crate) fn word<T: Copy + Drop>(
    alloc: Global,
    value: &Value,
    words: &[(&str, T)],
) -> Result<T, ReadError>
    ensures { Gives same (word_said (rows words.now) (value_view value.now)) result }
{
    let null = Value::Null;
    let Some(found) = named_variant(value, &null) else {
        return Err(mistyped(alloc, JsonKind::Variant));
    };
    let which = entry_named(alloc, found.name, words)?;
    in_member(alloc, found.name, unit(alloc, found.payload, which))
}

/// What the name stands for in a table.
pub(crate) fn entry_named<T: Copy>(
    alloc: Global,
    name: &str,
    words: &[(&str, T)],
) -> Result<T, ReadError>
    ensures { Gives same (entry_of (rows words.now) name.now) result }
{
    for (word, entry_named) in words {
        if *word == name {
            return Ok(*entry_named);
        }
    }
    Err(unknown(alloc, name))
}

/// The error of an object with a member of this name, which is none that is read or let be.
fn unknown_member(alloc: Global, name: &str) -> ReadError {
    match told_name(alloc, name) {
        Ok(name) => ReadError::at(alloc, Problem::UnknownMember(name)),
        Err(_) => ReadError::OutOfMemory,
    }
}

/// The error of a name that no table has.
pub(crate) fn unknown(alloc: Global, name: &str) -> ReadError {
    match told_name(alloc, name) {
        Ok(name) => ReadError::at(alloc, Problem::UnknownName(name)),
        Err(_) => ReadError::OutOfMemory,
    }
}

/// A double nearer to zero than this was told with a point or an exponent. Farther away it may be a
/// whole number that 64 bits lack.
const BEYOND_WHOLE_NUMBERS: f64 = 9223372036854775808.0;

/// The error of a value that is no whole number of the wanted type.
fn no_such_number(alloc: Global, value: &Value) -> ReadError {
    match value.as_f64() {
        Some(number) if is_fraction(value) && number.abs() < BEYOND_WHOLE_NUMBERS => {
            mistyped(alloc, JsonKind::WholeNumber)
        }
        Some(_) => ReadError::at(alloc, Problem::OutOfRange),
        None => mistyped(alloc, JsonKind::Number),
    }
}

/// Whether a number is none of the whole ones that 64 bits have.
fn is_fraction(value: &Value) -> bool {
    whole(value).is_none() && signed(value).is_none()
}

/// The whole number of 64 bits that this is.
fn whole(value: &Value) -> Option<u64>
    ensures { result ≡ whole_said (value_view value.now) }
{
    value.as_u64()
}

/// The whole number of 64 bits with a sign that this is. `-0` is none: it is a float.
fn signed(value: &Value) -> Option<i64>
    ensures { result ≡ integer_said (value_view value.now) }
{
    if is_minus_zero(value) {
        None
    } else {
        value.as_i64()
    }
}

/// Whether this is the numeral `-0`.
fn is_minus_zero(value: &Value) -> bool
    ensures { result ≡ is_minus_zero (as_number (value_view value.now)) }
{
    match value.as_number() {
        Some(text) => text == "-0",
        None => false,
    }
}

impl FromJson for bool {
    ghost Seen = { Bool };

    ghost seen = { same };

    ghost said = { as_bool };

    fn from_json(alloc: Global, value: &Value) -> Result<bool, ReadError> {
        match value.as_bool() {
            Some(truth) => Ok(truth),
            None => Err(mistyped(alloc, JsonKind::TruthValue)),
        }
    }
}

impl MayBeAbsent for bool {
    ghost absent_said = { false };

    fn absent(_alloc: Global) -> bool {
        false
    }
}

impl FromJson for u64 {
    ghost Seen = { ℕ };

    ghost seen = { same };

    ghost said = { whole_said };

    fn from_json(alloc: Global, value: &Value) -> Result<u64, ReadError> {
        match whole(value) {
            Some(number) => Ok(number),
            None => Err(no_such_number(alloc, value)),
        }
    }
}

impl FromJson for i64 {
    ghost Seen = { ℤ };

    ghost seen = { same };

    ghost said = { integer_said };

    fn from_json(alloc: Global, value: &Value) -> Result<i64, ReadError> {
        match signed(value) {
            Some(number) => Ok(number),
            None => Err(no_such_number(alloc, value)),
        }
    }
}

impl FromJson for usize {
    ghost Seen = { ℕ };

    ghost seen = { same };

    ghost said = { whole_said };

    fn from_json(alloc: Global, value: &Value) -> Result<usize, ReadError> {
        match whole(value).and_then(|n| usize::try_from(n).ok()) {
            Some(number) => Ok(number),
            None => Err(no_such_number(alloc, value)),
        }
    }
}

impl FromJson for u32 {
    ghost Seen = { ℕ };

    ghost seen = { same };

    ghost said = { unsigned_said 32 };

    fn from_json(alloc: Global, value: &Value) -> Result<u32, ReadError> {
        match whole(value).and_then(|n| u32::try_from(n).ok()) {
            Some(number) => Ok(number),
            None => Err(no_such_number(alloc, value)),
        }
    }
}

impl FromJson for i32 {
    ghost Seen = { ℤ };

    ghost seen = { same };

    ghost said = { signed_said 32 };

    fn from_json(alloc: Global, value: &Value) -> Result<i32, ReadError> {
        match signed(value).and_then(|n| i32::try_from(n).ok()) {
            Some(number) => Ok(number),
            None => Err(no_such_number(alloc, value)),
        }
    }
}

impl FromJson for u16 {
    ghost Seen = { ℕ };

    ghost seen = { same };

    ghost said = { unsigned_said 16 };

    fn from_json(alloc: Global, value: &Value) -> Result<u16, ReadError> {
        match whole(value).and_then(|n| u16::try_from(n).ok()) {
            Some(number) => Ok(number),
            None => Err(no_such_number(alloc, value)),
        }
    }
}

impl FromJson for i16 {
    ghost Seen = { ℤ };

    ghost seen = { same };

    ghost said = { signed_said 16 };

    fn from_json(alloc: Global, value: &Value) -> Result<i16, ReadError> {
        match signed(value).and_then(|n| i16::try_from(n).ok()) {
            Some(number) => Ok(number),
            None => Err(no_such_number(alloc, value)),
        }
    }
}

impl FromJson for u8 {
    ghost Seen = { ℕ };

    ghost seen = { same };

    ghost said = { unsigned_said 8 };

    fn from_json(alloc: Global, value: &Value) -> Result<u8, ReadError> {
        match whole(value).and_then(|n| u8::try_from(n).ok()) {
            Some(number) => Ok(number),
            None => Err(no_such_number(alloc, value)),
        }
    }
}

impl FromJson for String {
    ghost Seen = { List ℕ };

    ghost seen = { string_bytes };

    ghost said = { as_str };

    fn from_json(alloc: Global, value: &Value) -> Result<String, ReadError> {
        match value.as_str() {
            Some(text) => Ok(String::from_str(alloc, text)?),
            None => Err(mistyped(alloc, JsonKind::Text)),
        }
    }
}

impl<M> FromJson for ItemIndex<M> {
    ghost Seen = { ℕ };

    ghost seen = { same };

    ghost said = { whole_said };

    fn from_json(alloc: Global, value: &Value) -> Result<ItemIndex<M>, ReadError> {
        let index = usize::from_json(alloc, value)?;
        Ok(ItemIndex::from_index(index))
    }
}

impl<T: FromJson> FromJson for Option<T> {
    ghost Seen = { Option T.Seen };

    ghost seen = { option_map T.seen };

    ghost said = { option_said T.said };

    fn from_json(alloc: Global, value: &Value) -> Result<Option<T>, ReadError> {
        if value.is_null() {
            Ok(None)
        } else {
            Ok(Some(T::from_json(alloc, value)?))
        }
    }
}

impl<T: FromJson> MayBeAbsent for Option<T> {
    ghost absent_said = { None };

    fn absent(_alloc: Global) -> Option<T> {
        None
    }
}

impl<T: FromJson> FromJson for Vec<T> {
    ghost Seen = { List T.Seen };

    ghost seen = { λ v. map T.seen v.items };

    ghost said = { list_said T.said };

    fn from_json(alloc: Global, value: &Value) -> Result<Vec<T>, ReadError> {
        let items = items_of(alloc, value)?;
        let mut read = Vec::with_capacity(alloc, items.len())?;
        for (index, item) in items.iter().enumerate() {
            read.push(item_of(alloc, item, index)?)?;
        }
        Ok(read)
    }
}

impl<T: FromJson + Item> FromJson for Arena<T> {
    ghost Seen = { List T.Seen };

    ghost seen = { λ a. map T.seen a };

    ghost said = { list_said T.said };

    fn from_json(alloc: Global, value: &Value) -> Result<Arena<T>, ReadError> {
        let items = items_of(alloc, value)?;
        let mut read = Arena::new(alloc);
        for (index, item) in items.iter().enumerate() {
            read.append(item_of(alloc, item, index)?)?;
        }
        Ok(read)
    }
}

/// Whether the value is an object.
pub(crate) fn is_object(value: &Value) -> bool
    ensures { result ≡ is_object (value_view value.now) }
{
    matches!(value, Value::Object(_))
}

/// The items of a list.
pub(crate) fn items_of<'v, 'a>(
    alloc: Global,
    value: &'v Value<'a>,
) -> Result<&'v Vec<Value<'a>>, ReadError>
    ensures { Gives (λ v. items_view v.now.items) (as_array (value_view value.now)) result }
{
    match value {
        Value::Array(items) => Ok(items),
        _ => Err(mistyped(alloc, JsonKind::List)),
    }
}

/// The item at `index` of a list.
pub(crate) fn item_of<T: FromJson>(
    alloc: Global,
    item: &Value,
    index: usize,
) -> Result<T, ReadError>
    ensures { Gives T.seen (T.said (value_view item.now)) result }
{
    in_item(alloc, index, T::from_json(alloc, item))
}
