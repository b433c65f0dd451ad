//! Which lines are shown.

ghost use Rattle.std.specs.Prelude.{◌≡◌, ◌||◌, false, if◌then◌else◌, IfOk, OnOk};
ghost use Rattle.naga_listing.specs.Choice.{after_gap, begins_with_gap, is_about, is_gap};
ghost use Rattle.naga_listing.specs.Choice.{is_named, is_near, lines_with};
ghost use Rattle.naga_listing.specs.Choice.{is_shown, is_title, shown_from, marked_line};
ghost use Rattle.naga_listing.specs.Choice.{position_lines, shown_lines, with_any, with_line};
ghost use Rattle.naga_listing.specs.Choice.{with_marked};

use crate::lines::all_lines;
use crate::named::{named_spots, named_with};
use crate::positions::{Line, LineKind, ListingPosition, Spot};
use naga_ir::Module;
use std::alloc::{AllocError, Global};
use std::marker::Model;

/// So many lines before the marked one and after it are shown.
const RADIUS: usize = 5;

/// The lines of a position, some forty at most: the first of what is listed, those near the
/// position's own line, those of statements around it, those that it names, and the titles of their
/// lists. A mark follows its own line, and a gap stands for lines that are left out.
///
/// Where the module has no such position, the first line is marked.
///
/// ```text
/// let position = ListingPosition::of(Listed::Function(double), Spot::Expression(sum));
/// let lines = listing(alloc, &module, &position)?;
/// ```
pub fn listing(
    alloc: Global,
    module: &Module,
    position: &ListingPosition,
) -> Result<Vec<Line>, AllocError>
    ensures { IfOk result (λ lines. lines.items ≡ position_lines «module».now position.now) }
{
    let lines = all_lines(alloc, module, &position.listed)?;
    let spots = named_spots(alloc, module, position)?;
    shown_lines(alloc, &position.spot, &spots, &lines)
}

/// The lines that [`listing`] gives, with those of the items `more` beside them. The only error is want
/// of memory.
pub fn listing_with(
    alloc: Global,
    module: &Module,
    position: &ListingPosition,
    more: &[Spot],
) -> Result<Vec<Line>, AllocError>
    ensures { IfOk result (λ lines. lines.items
        ≡ lines_with «module».now position.now more.now) }
{
    let lines = all_lines(alloc, module, &position.listed)?;
    let spots = named_with(alloc, module, position, more)?;
    shown_lines(alloc, &position.spot, &spots, &lines)
}

fn shown_lines(
    alloc: Global,
    spot: &Spot,
    spots: &[Spot],
    lines: &[Line],
) -> Result<Vec<Line>, AllocError>
    ensures { IfOk result (λ shown. shown.items ≡ shown_lines spot.now spots.now lines.now) }
{
    let marked = marked_line(spot, lines);
    let kept = chosen_lines(alloc, marked, spots, lines)?;
    let Shown { lines, .. } = kept;
    Ok(lines)
}

/// The number of the line that is about this, or that of the first line.
fn marked_line(spot: &Spot, lines: &[Line]) -> usize
    ensures { result ≡ marked_line spot.now lines.now }
{
    lines
        .iter()
        .position(|line| is_about(spot, &line.kind))
        .unwrap_or(0)
}

#[tactic(auto, using(crate::proofs::Choosing::shown_next))]
fn chosen_lines(
    alloc: Global,
    marked: usize,
    spots: &[Spot],
    lines: &[Line],
) -> Result<Shown, AllocError>
    ensures { IfOk result (λ kept. kept ≡ shown_from marked spots.now 0 lines.now) }
{
    let mut kept = Shown::new(alloc);
    for index in (0..lines.len()).rev() {
        kept.add(marked, spots, index, &lines[index])?;
    }
    Ok(kept)
}

fn is_about(spot: &Spot, kind: &LineKind) -> bool
    ensures { result ≡ is_about spot.now kind.now }
{
    match kind {
        LineKind::Item(item) => *item == *spot,
        _ => false,
    }
}

fn is_named(spots: &[Spot], kind: &LineKind) -> bool
    ensures { result ≡ is_named spots.now kind.now }
{
    spots.iter().any(|spot| is_about(spot, kind))
}

fn is_title(kind: &LineKind) -> bool
    ensures { result ≡ is_title kind.now }
{
    matches!(kind, LineKind::Title(_))
}

fn is_gap(kind: &LineKind) -> bool
    ensures { result ≡ is_gap kind.now }
{
    matches!(kind, LineKind::Gap)
}

fn begins_with_gap(lines: &[Line]) -> bool
    ensures { result ≡ begins_with_gap lines.now }
{
    match lines.first() {
        Some(line) => is_gap(&line.kind),
        None => false,
    }
}

/// Whether a list is shown whose first line is of this kind, by whether one is after it.
fn opens(kind: &LineKind, shown: bool, opened: bool) -> bool
    ensures { result ≡ (if is_title kind.now then false else (shown || opened)) }
{
    if is_title(kind) {
        false
    } else {
        shown || opened
    }
}

fn is_near(marked: usize, index: usize) -> bool
    ensures { result ≡ is_near marked index }
{
    index.saturating_sub(marked) <= RADIUS && marked.saturating_sub(index) <= RADIUS
}

/// What is held of the last lines.
#[derive(Drop)]
struct Shown {
    /// The lines that are shown, with gaps.
    lines: Vec<Line>,
    /// The level of the first line that encloses the marked one, and 0 before that is met.
    level: usize,
    /// Whether a line is shown of the list that they begin in.
    opened: bool,
}

impl Model for Shown {
    ghost use Rattle.naga_listing.specs.Choice.{Shown as ShownLines};

    ghost Value = { ShownLines };

    ghost view = { λ k. record { lines = k.lines.items; level = k.level; opened = k.opened } };
}

impl Shown {
    ghost use Rattle.std.specs.Prelude.{[], ◌∷◌};

    fn new(alloc: Global) -> Self
        ensures { result ≡ record { lines = []; level = 0; opened = false } }
    {
        Shown {
            lines: Vec::new(alloc),
            level: 0,
            opened: false,
        }
    }

    /// Puts a line before those that it holds.
    fn put(&mut self, level: usize, head: LineKind) -> Result<(), AllocError>
        ensures { OnOk result (self.new ≡ record self.old {
          lines = record { level = level; kind = head } ∷ self.old.lines;
        }) }
    {
        self.lines.insert(0, Line { level, kind: head })?;
        Ok(())
    }

    /// Leaves a line out.
    fn leave_out(&mut self) -> Result<(), AllocError>
        ensures { OnOk result (self.new
            ≡ record self.old { lines = after_gap self.old.lines }) }
    {
        if begins_with_gap(&self.lines) {
            Ok(())
        } else {
            self.put(0, LineKind::Gap)
        }
    }

    fn shows(&self, marked: usize, spots: &[Spot], index: usize, line: &Line) -> bool
        ensures { result ≡ is_shown marked spots.now index line.now self.now }
    {
        if is_title(&line.kind) {
            self.opened
        } else {
            is_near(marked, index)
                || line.level < self.level
                || index == 0
                || is_named(spots, &line.kind)
        }
    }

    /// Puts the marked line before those that it holds, with the line that says what is wrong.
    fn add_marked(&mut self, line: &Line) -> Result<(), AllocError>
        ensures { OnOk result (self.new ≡ with_marked line.now self.old) }
    {
        let level = line.level;
        self.put(level, LineKind::Mark)?;
        self.put(level, line.kind)?;
        self.level = level;
        self.opened = true;
        Ok(())
    }

    /// Puts a line before those that it holds if it is shown, and else leaves it out.
    fn put_or_leave_out(&mut self, shown: bool, line: &Line) -> Result<(), AllocError>
        ensures { OnOk result (self.new ≡ record self.old {
          lines = if shown then line.now ∷ self.old.lines else after_gap self.old.lines;
        }) }
    {
        if shown {
            self.put(line.level, line.kind)
        } else {
            self.leave_out()
        }
    }

    /// Goes on with a line that is not marked.
    fn add_line(&mut self, shown: bool, line: &Line) -> Result<(), AllocError>
        ensures { OnOk result (self.new ≡ with_line shown line.now self.old) }
    {
        self.put_or_leave_out(shown, line)?;
        let level = line.level;
        let before = self.level;
        self.level = before.min(level);
        let opened = self.opened;
        self.opened = opens(&line.kind, shown, opened);
        Ok(())
    }

    /// Goes on with the line of this number.
    fn add(
        &mut self,
        marked: usize,
        spots: &[Spot],
        index: usize,
        line: &Line,
    ) -> Result<(), AllocError>
        ensures { OnOk result (self.new ≡ with_any marked spots.now index line.now self.old) }
    {
        if index == marked {
            return self.add_marked(line);
        }
        let shown = self.shows(marked, spots, index, line);
        self.add_line(shown, line)
    }
}
