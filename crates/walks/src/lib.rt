// A walk over a part of a row, sign by sign (`walk`), and over a whole row of cells (`walk_row`). Between two signs it knows a mode and which pairs are open; both
// follow from the cells before. What is read is written to a lent text, if there is room for it. What a walk finds is specs/Walks.antt.
#![tactic(auto)]

ghost use Rattle.std.specs.Prelude.{List, [], ◌≡◌, ℕ, ◌+◌, ◌*◌, ◌≤◌, ◌<◌, length, Some, None};
ghost use Rattle.rules.specs.Refusals.{longest_row};
ghost use Rattle.readings.specs.Print.{points};
ghost use Rattle.walks.specs.Walks.{most_points, a_stand, uncounted, Stands, Wrote, Room, RoomLeft, Reads, Runs, Strides, Goes, AllCells, Alone, Tallied};

use readings::{Mode, NO_POINT, Step};

// Where a walk over a row stands between two signs: the place, what the signs before it leave (the mode and the open pairs), and how many code points are counted.
#[derive(Clone, Copy)]
pub struct Stand {
    pub at: usize,
    pub mode: Mode,
    pub opened: usize,
    pub count: usize,
}

// No text has the row. Before the place `cells` every byte that was walked over is a cell.
#[derive(Clone, Copy)]
pub struct NoText {
    pub cells: usize,
}

impl Stand {
    // At a row's front: nothing is begun, no pair is open.
    pub fn at_start() -> Stand
        ensures { result ≡ a_stand 0 0 0 0 }
    {
        Stand {
            at: 0,
            mode: Mode::Free,
            opened: 0,
            count: 0,
        }
    }
}

// Writes a sign's code points behind those that are counted, and counts them. There is room for one; two that have no room both are only counted.
#[tactic(auto, using(crate::proofs::Writing::put_one, crate::proofs::Writing::put_two))]
fn put(text: &mut [u32], count: usize, lead: Option<u32>, point: u32) -> usize
    requires { (count ≤ most_points) × (count < length text.old) }
    ensures { (result ≡ count + length (points lead point)) × Wrote text.old text.new count (points lead point) }
{
    let Some(lead) = lead else {
        text[count] = point;
        return count + 1;
    };
    if count + 2 <= text.len() {
        text[count] = lead;
        text[count + 1] = point;
    }
    count + 2
}

// Signs that follow one another alike: as many as `next` reads, from a place and a mode on. (A sign has one cell or several, so the next place is what the step says, and there is
// nothing that a `for` could go over: so in every walk. `row` is here for what is promised. The loop carries numbers and no Stand, as in `stretch`.)
fn repeated<F: Fn(usize, Mode) -> Option<Step>>(
    next: F,
    row: &[u8],
    from: Stand,
    stop: usize,
    text: &mut [u32],
) -> Stand
    requires { Stands row.now from × (stop ≤ length row.now) × Room stop from.at from.count (length text.old) × Reads (F.pre next) (F.post next) row.now from }
    ensures { Runs row.now stop from text.old text.new result × RoomLeft stop (length text.old) result }
{
    let mut at = from.at;
    let mut mode = from.mode;
    let mut count = from.count;
    while at < stop {
        let Some(step) = next(at, mode) else {
            break;
        };
        count = put(text, count, step.lead, step.point);
        mode = step.mode;
        at = step.next;
    }
    Stand {
        at,
        mode,
        opened: from.opened,
        count,
    }
}

// What follows alike, by the mode that the last sign left: U+2014 behind another; a capital with its 46 behind two such or more; the digits of a number with the points
// and commas between them, the letters of a run of capitals, lower digits. (`stretch` would read the same, with more to ask at each sign.)
fn alike(row: &[u8], from: Stand, stop: usize, text: &mut [u32]) -> Stand
    requires { Stands row.now from × (stop ≤ length row.now) × Room stop from.at from.count (length text.old) }
    ensures { Runs row.now stop from text.old text.new result × RoomLeft stop (length text.old) result }
{
    let opened = from.opened;
    match from.mode {
        Mode::Dash => repeated(
            |at, _| signs::dash_at(row, at, opened),
            row,
            from,
            stop,
            text,
        ),
        Mode::Owing => repeated(
            |at, _| signs::owed_at(row, at, opened),
            row,
            from,
            stop,
            text,
        ),
        _ => {
            let Some(run) = signs::run_of(from.mode) else {
                return from;
            };
            repeated(
                |at, mode| signs::run_at(row, at, run, mode, opened),
                row,
                from,
                stop,
                text,
            )
        }
    }
}

// Up to where there is room for a code point for each cell from a place on, but not behind the place `stop`.
fn limit_of(at: usize, stop: usize, room: usize, count: usize) -> usize
    requires { (count ≤ at + room) × (at ≤ longest_row) × (room ≤ longest_row) }
    ensures { (result ≤ stop) × Room result at count room × (at < stop → count < room → at < result) }
{
    if room < count {
        return 0;
    }
    let most = at + (room - count);
    if most < stop { most } else { stop }
}

// The same behind a sign. (One of one code point has a cell for it, and leaves as much room to the cells behind it. One of two may have but one cell.)
fn limit_behind(
    lead: Option<u32>,
    limit: usize,
    next: usize,
    stop: usize,
    room: usize,
    count: usize,
) -> usize
    requires { (limit ≤ stop) × (count ≤ next + room) × (next ≤ longest_row) × (room ≤ longest_row) × (lead ≡ None → Room limit next count room) }
    ensures { (result ≤ stop) × Room result next count room }
{
    match lead {
        None => limit,
        Some(_) => limit_of(next, stop, room, count),
    }
}

// "each step gives the print of the next sign and the place after it." From a place, where a sign starts, with what the signs before it leave, as long as the next sign starts before
// the place `stop` and there is room for what is read: so of room nothing is asked at each sign. The print is written behind the code points that are counted. Behind some
// signs more may follow alike, and those are read at once. (Behind most signs none may: their modes are the lowest. What the loop knows is not carried as a Stand, which
// takes twice the time.)
fn stretch(row: &[u8], from: Stand, stop: usize, text: &mut [u32]) -> Result<Stand, NoText>
    requires { Stands row.now from × (stop ≤ length row.now) × (length text.old ≤ longest_row) × (from.count < length text.old) }
    ensures { Strides row.now stop from text.old text.new result }
{
    let Stand {
        mut at,
        mut mode,
        mut opened,
        mut count,
    } = from;
    let mut limit = limit_of(at, stop, text.len(), count);
    while at < limit {
        let word = signs::word_of(row[at]);
        if signs::is_usual(word, mode) {
            let step = signs::usual(word, at, opened);
            count = put(text, count, step.lead, step.point);
            mode = step.mode;
            opened = step.opened;
            at = step.next;
        } else {
            let Some(step) = signs::sign_at(row, at, word, mode, opened) else {
                return Err(NoText { cells: at });
            };
            count = put(text, count, step.lead, step.point);
            mode = step.mode;
            opened = step.opened;
            at = step.next;
            limit = limit_behind(step.lead, limit, at, stop, text.len(), count);
            if mode.goes_on() {
                let last = alike(
                    row,
                    Stand {
                        at,
                        mode,
                        opened,
                        count,
                    },
                    limit,
                    text,
                );
                at = last.at;
                mode = last.mode;
                opened = last.opened;
                count = last.count;
            }
        }
    }
    Ok(Stand {
        at,
        mode,
        opened,
        count,
    })
}

// So many code points are read at once where nothing is written.
const SCRAP: usize = 128;

// A stretch that nothing is written of; it is counted from 0 on.
fn unwritten(row: &[u8], from: Stand, stop: usize) -> Result<Stand, NoText>
    requires { Stands row.now (uncounted from) × (stop ≤ length row.now) }
    ensures { Strides row.now stop (uncounted from) [] [] result }
{
    let mut scrap = [NO_POINT; SCRAP];
    stretch(row, Stand { count: 0, ..from }, stop, &mut scrap)
}

// A walk up to the place `stop`, stretch by stretch. Where there is no room any more, what is read is only counted. (It is drawn into its callers, and its loop carries
// numbers and no Stand, as in `stretch`: a call of its own hands a Stand over in memory, and a step over a short row, which walks three times, takes twice the time.)
#[inline(always)]
pub fn walk(row: &[u8], from: Stand, stop: usize, text: &mut [u32]) -> Result<Stand, NoText>
    requires { Stands row.now from × (stop ≤ length row.now) × (length text.old ≤ longest_row) }
    ensures { Goes row.now stop from text.old text.new result }
{
    let Stand {
        mut at,
        mut mode,
        mut opened,
        mut count,
    } = from;
    while at < stop {
        let now = Stand {
            at,
            mode,
            opened,
            count,
        };
        let next = if count < text.len() {
            stretch(row, now, stop, text)?
        } else {
            let read = unwritten(row, now, stop)?;
            Stand {
                count: count + read.count,
                ..read
            }
        };
        at = next.at;
        mode = next.mode;
        opened = next.opened;
        count = next.count;
    }
    Ok(Stand {
        at,
        mode,
        opened,
        count,
    })
}

// How many cells are walked at once where nothing is written any more.
const PART: usize = 1024;

// The place behind the small letters and the signs of one cell that stand from a place on. (Every byte is a cell, so nothing else is asked of it.)
fn behind_alone(row: &[u8], from: usize) -> usize
    requires { (from ≤ length row.now) × AllCells row.now }
    ensures { Alone row.now from result }
{
    for at in from..row.len() {
        if !signs::is_alone(row[at]) {
            return at;
        }
    }
    row.len()
}

// The same in a mode that reads them so, where there is no room for them; otherwise the place itself.
fn behind_tallied(row: &[u8], from: Stand, room: usize) -> usize
    requires { (from.at ≤ length row.now) × AllCells row.now }
    ensures { Tallied row.now from room result }
{
    match from.mode {
        Mode::Free | Mode::Mixed if room <= from.count => behind_alone(row, from.at),
        _ => from.at,
    }
}

// What there is no room for is only counted, and such cells are counted at once. (They are most of a text, and so its length is soon known where it is too long.)
fn tally(row: &[u8], from: Stand, room: usize) -> Stand
    requires { Stands row.now from × AllCells row.now }
    ensures { (t : List ℕ) → length t ≡ room → Runs row.now (length row.now) from t t result }
{
    let end = behind_tallied(row, from, room);
    if end == from.at {
        return from;
    }
    Stand {
        at: end,
        mode: signs::mode_behind(row[end - 1]),
        opened: from.opened,
        count: from.count + (end - from.at),
    }
}

// Up to where the next part of a row goes: as many cells as there is room for code points, and behind that PART.
fn part_end(at: usize, end: usize, room: usize, counted: usize) -> usize
    requires { (at ≤ end) × (end ≤ longest_row) }
    ensures { (result ≤ end) × (at ≤ result) × (at < end → at < result) }
{
    let part = if counted < room { room - counted } else { PART };
    if end - at <= part {
        return end;
    }
    at + part
}

// A whole row of cells, part by part: what a walk over it finds. Where the text is full, the rest is only counted.
pub fn walk_row(row: &[u8], text: &mut [u32]) -> Result<Stand, NoText>
    requires { (length row.now ≤ longest_row) × AllCells row.now × (length text.old ≤ longest_row) }
    ensures { Goes row.now (length row.now) (a_stand 0 0 0 0) text.old text.new result }
{
    let mut now = Stand::at_start();
    while now.at < row.len() {
        let near = tally(row, now, text.len());
        let stop = part_end(near.at, row.len(), text.len(), near.count);
        let Ok(next) = walk(row, near, stop, text) else {
            return Err(NoText { cells: row.len() });
        };
        now = next;
    }
    Ok(now)
}
