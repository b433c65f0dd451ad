//! Members of structs, and what is written so that they stay where a module has them.
//!
//! All numbers are in bytes. Members are asked about one after another, each with the one before
//! it.

ghost use Rattle.std.specs.Prelude.{◌≡◌, ◌&&◌, ℕ, Option, min};
ghost use Rattle.std.specs.Option.{option_map};
ghost use Rattle.wgsl_layout.specs.Capped.{IsAlignment, capped, capped_member, past};
ghost use Rattle.wgsl_layout.specs.Faults.{goes_on, own_fault};
ghost use Rattle.wgsl_layout.specs.Members.{begins_inside, end_after_last, ended, gap_size};
ghost use Rattle.wgsl_layout.specs.Members.{is_aligned, stands_after};
ghost use Rattle.wgsl_layout.specs.declared.layouts.Placed as placed;

use crate::layouts::{Layout, PAST, Placed};

/// Whether a member can be left where the module has it: at a multiple of its alignment, and at 0,
/// if it is the first, or else not at 0 and no earlier than where the one before it ends.
pub fn stands_after(before: Option<Placed>, member: Placed) -> bool
    requires aligned { IsAlignment member.layout.alignment }
    ensures { (b : Option placed.Placed) → (k : placed.Placed) →
        before ≡ option_map capped_member b → member ≡ capped_member k →
        result ≡ (is_aligned k && stands_after b k) }
{
    if member.offset % member.layout.alignment != 0 {
        return false;
    }
    match before {
        None => member.offset == 0,
        Some(before) => match before.layout.size {
            Some(size) => {
                size < PAST
                    && member.offset != 0
                    && before.offset as u64 + size <= member.offset as u64
            }
            None => false,
        },
    }
}

/// The `@size` that is written of a member at `offset`, whose type has this size, so that what is
/// after it, of this alignment, begins at `next`, as in the module. After the last member comes the
/// struct's end, at its span. `None` where WGSL has it at `next` by itself, and where it can't be
/// there.
///
/// ```text
/// gap_size(0, Some(4), 16, 4) // Some(16)
/// gap_size(0, Some(4), 16, 16) // None
/// ```
pub fn gap_size(offset: u32, size: Option<u64>, next: u32, alignment: u32) -> Option<u32>
    requires aligned { IsAlignment alignment }
    ensures { (s : Option ℕ) → size ≡ option_map (min past) s →
        result ≡ gap_size offset s next alignment }
{
    let size = size?;
    if size >= PAST {
        return None;
    }
    let end = (offset as u64 + size).next_multiple_of(alignment as u64);
    if end < next as u64 && next % alignment == 0 {
        Some(next - offset)
    } else {
        None
    }
}

/// The layout of a struct of this alignment and span that ends with this member, where each member
/// can be left where it is. The size is the span, where the last member has room in it and it is a
/// multiple of the alignment, or else the last member's end, rounded up. There is none where the
/// last member has none.
pub fn ended(span: u32, alignment: u32, last: Placed) -> Layout
    requires aligned { IsAlignment alignment }
    ensures { (k : placed.Placed) → last ≡ capped_member k →
        result ≡ capped (ended span alignment k) }
{
    let size = match last.layout.size {
        Some(size) => Some(end_of_struct(last.offset, size, span, alignment)),
        None => None,
    };
    Layout { alignment, size }
}

/// The size of such a struct whose last member begins at `offset` and has this size.
fn end_of_struct(offset: u32, size: u64, span: u32, alignment: u32) -> u64
    requires aligned { IsAlignment alignment }
    ensures { (s : ℕ) → size ≡ min past s →
        result ≡ min past (end_after_last offset s span alignment) }
{
    if size >= PAST {
        return PAST;
    }
    let end = (offset as u64 + size).next_multiple_of(alignment as u64);
    if end < span as u64 && span % alignment == 0 {
        span as u64
    } else {
        end.min(PAST)
    }
}

/// Why the members of a struct can't be left where a module has them.
#[derive(Debug, Clone, Copy, PartialEq, Eq)]
pub enum Misplaced {
    /// The first isn't at 0, or one isn't at a multiple of its alignment.
    OffAlignment,
    /// One begins before the one before it ends.
    Overlapping,
}

/// Whether the struct may, with this member, still be one that is to keep its members' offsets: of
/// such a struct no member but the first is at 0, and each but the last has a size.
pub fn goes_on(before: Option<Placed>, member: Placed) -> bool
    ensures { (b : Option placed.Placed) → (k : placed.Placed) →
        before ≡ option_map capped_member b → member ≡ capped_member k → result ≡ goes_on b k }
{
    match before {
        None => true,
        Some(before) => member.offset != 0 && before.layout.size.is_some(),
    }
}

/// Why a member can't be left where it is, after the one before it; `None` where it can.
pub fn own_fault(before: Option<Placed>, member: Placed) -> Option<Misplaced>
    requires aligned { IsAlignment member.layout.alignment }
    ensures { (b : Option placed.Placed) → (k : placed.Placed) →
        before ≡ option_map capped_member b → member ≡ capped_member k → result ≡ own_fault b k }
{
    if member.offset % member.layout.alignment != 0 {
        return Some(Misplaced::OffAlignment);
    }
    match before {
        None => {
            if member.offset == 0 {
                None
            } else {
                Some(Misplaced::OffAlignment)
            }
        }
        Some(before) => {
            if begins_inside(before, member) {
                Some(Misplaced::Overlapping)
            } else {
                None
            }
        }
    }
}

/// Whether a member begins before the one before it ends.
fn begins_inside(before: Placed, member: Placed) -> bool
    ensures { (b : placed.Placed) → (k : placed.Placed) → before ≡ capped_member b →
        member ≡ capped_member k → result ≡ begins_inside b k }
{
    match before.layout.size {
        Some(size) => size >= PAST || (member.offset as u64) < before.offset as u64 + size,
        None => false,
    }
}
