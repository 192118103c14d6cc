// The sign that starts at a place of a row: the proofing screen's step. What it promises is specs/Promise.antt.
// The row is walked once (crates/walks), in three parts: up to the place, over the sign there, and to the end. What a walk knows follows from the cells before, and
// nothing is kept from one step to the next. A row that is not accepted is refused with what `reader::read` answers.
#![tactic(auto)]

ghost use Rattle.std.specs.Prelude.{◌⊎◌, ◌≡◌, ◌+◌, ◌≤◌, ◌<◌, length};
ghost use Rattle.rules.specs.Castilian.{castilian};
ghost use Rattle.stepper.specs.Promise.{Shows};

use reader::{LONGEST_ROW, LONGEST_TEXT, Refusal, ends, reported_length, unread};
use readings::{NO_POINT, point_of};
use walks::{Stand, walk};

// The sign that starts at a place: its print (`lead` is a code point that has no cell and goes before `point`, if it has one), and the place after it.
#[derive(Clone, Copy)]
pub struct Sign {
    pub lead: Option<u32>,
    pub point: u32,
    pub next: usize,
}

// Up to where a step walks before the sign at its place.
fn stop_before(place: usize, end: usize) -> usize
    ensures { ((place < end) × (result ≡ place)) ⊎ ((end ≤ place) × (result ≡ end)) }
{
    place.min(end)
}

// Up to where it walks for that sign, from where it came to: one place on, if that is the place and the row goes on there.
fn stop_behind(at: usize, place: usize, end: usize) -> usize
    ensures { ((at ≡ place) × (at < end) × (result ≡ at + 1)) ⊎ (((at ≡ place) → end ≤ at) × (result ≡ at)) }
{
    if at == place && at < end { at + 1 } else { at }
}

// A row of one cell: one sign, or none.
#[tactic(auto, using(crate::proofs::Answering::step_refused))]
fn step_cell(row: &[u8], place: usize) -> Result<Option<Sign>, Refusal>
    requires { length row.now ≡ 1 }
    ensures { Shows castilian row.now place result }
{
    let Some(point) = point_of(row[0]) else {
        return Err(unread(row, 0));
    };
    if place != 0 {
        return Ok(None);
    }
    Ok(Some(Sign {
        lead: None,
        point,
        next: 1,
    }))
}

// Any row, walked once: up to the place, over the sign there, and to the end. What is read before and behind the sign is only counted: there is no room for it.
#[tactic(auto, using(crate::proofs::Answering::step_refused, reader::proofs::Answering::row_long))]
fn step_row(row: &[u8], place: usize) -> Result<Option<Sign>, Refusal>
    ensures { Shows castilian row.now place result }
{
    if LONGEST_ROW < row.len() {
        return Err(Refusal::TooLong(reported_length(row.len())));
    }
    let mut no_room = [NO_POINT; 0];
    let mut print = [NO_POINT; 2];
    let Ok(before) = walk(
        row,
        Stand::at_start(),
        stop_before(place, row.len()),
        &mut no_room,
    ) else {
        return Err(unread(row, 0));
    };
    let here = Stand { count: 0, ..before };
    let Ok(behind) = walk(
        row,
        here,
        stop_behind(here.at, place, row.len()),
        &mut print,
    ) else {
        return Err(unread(row, 0));
    };
    let Ok(end) = walk(row, Stand { count: 0, ..behind }, row.len(), &mut no_room) else {
        return Err(unread(row, 0));
    };
    if !ends(end.mode, end.opened) {
        return Err(unread(row, 0));
    }
    let count = before.count + behind.count + end.count;
    if LONGEST_TEXT < count {
        return Err(Refusal::TooLong(count));
    }
    if behind.at == here.at {
        return Ok(None);
    }
    let (lead, point) = if behind.count == 1 {
        (None, print[0])
    } else {
        (Some(print[0]), print[1])
    };
    Ok(Some(Sign {
        lead,
        point,
        next: behind.at,
    }))
}

// The proofing screen's step: "What a step gives follows from the row and the place alone." What starts at the place, if a sign does; or why the row is refused. A row is walked once, and
// one of one cell not at all.
// Two wrong programs that the promise shuts out: one that shows a sign of a row that is not accepted, and one that shows the print of the sign before.
pub fn step(row: &[u8], place: usize) -> Result<Option<Sign>, Refusal>
    ensures { Shows castilian row.now place result }
{
    if row.len() == 1 {
        return step_cell(row, place);
    }
    step_row(row, place)
}
