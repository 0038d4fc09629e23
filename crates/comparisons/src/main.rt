// Compares the library with the reference's vectors on standard input, and says of each sort how many rows there are and how many
// differ, of those that are right and of those that are wrong: 0 and all. The input is rows, whose layout is in reference/rows.py;
// what a row's part of the store holds, earlier rows brought.
#![tactic(auto)]

ghost use Rattle.std.specs.Prelude.{◌≡◌, ◌≤◌};
ghost use Rattle.comparisons.specs.Agreement.{row_agrees};

use crate::notes::Told;
use crate::said::Row;
use model::Run;
use model::layout::RUN_SIZE;
use run_bytes::run_at;
use std::io;
use std::io::Read;
use tallies::{Tallies, Tally, counted, index};

mod calls;
mod displays;
mod files;
mod lents;
mod moves;
mod notes;
mod numbers;
mod places;
mod points;
mod said;

const ELEMENT: u8 = 1;

const FILE: u8 = 2;

const POINT: u8 = 3;

const NUMBER: u8 = 4;

const CALL: u8 = 5;

const NOTE: u8 = 6;

const LENT: u8 = 7;

const DISPLAY: u8 = 8;

const MOVE: u8 = 9;

const BYTES: u8 = 10;

const RUN: u8 = 11;

// What a row comes to. One that is cut off, of no known sort or with a part past the store is compared with nothing.
#[derive(Clone, Copy)]
enum Came {
    Same,
    Different,
    Cut,
}

// That, and the run by value after it.
#[derive(Clone, Copy)]
struct Step {
    came: Came,
    run: Run,
}

// What the rows so far came to, and the run by value after them.
#[derive(Clone, Copy)]
struct State {
    tallies: Tallies,
    run: Run,
}

// How many bytes follow the head of a row that compares.
fn size(sort: u8) -> usize
    ensures { result ≤ 124 }
{
    match sort {
        ELEMENT => 36,
        FILE => 4,
        POINT => 44,
        NUMBER => 16,
        CALL => 84,
        NOTE => 124,
        LENT => 124,
        DISPLAY => 68,
        MOVE => 60,
        _ => 0,
    }
}

// Whether the library comes to what a row says, on the row's part of the store, and the run by value after it.
fn agrees(sort: u8, row: &Row, part: &[u8], bytes: &mut [u8], run: Run) -> Told
    ensures { result ≡ row_agrees sort row.now part.now bytes.old run }
{
    match sort {
        ELEMENT => Told {
            same: places::agrees(row, part),
            run,
        },
        FILE => Told {
            same: files::agrees(row, part),
            run,
        },
        POINT => Told {
            same: points::agrees(row, part),
            run,
        },
        NUMBER => Told {
            same: numbers::agrees(row),
            run,
        },
        CALL => Told {
            same: calls::agrees(row, part, bytes),
            run,
        },
        NOTE => notes::agrees(row, part, run),
        LENT => lents::agrees(row, part, run),
        DISPLAY => Told {
            same: displays::agrees(row, part),
            run,
        },
        MOVE => Told {
            same: moves::agrees(row),
            run,
        },
        _ => Told { same: false, run },
    }
}

fn cut(run: Run) -> Step {
    Step {
        came: Came::Cut,
        run,
    }
}

// Reads the rest of a row that compares.
fn compared<R: Read>(input: &mut R, sort: u8, part: &[u8], bytes: &mut [u8], run: Run) -> Step {
    let n = size(sort);
    if n == 0 {
        return cut(run);
    }
    let mut row = [0u8; 124];
    if input.read_exact(&mut row[0..n]).is_err() {
        return cut(run);
    }
    let told = agrees(sort, &row, part, bytes, run);
    let after = told.run;
    if told.same {
        Step {
            came: Came::Same,
            run: after,
        }
    } else {
        Step {
            came: Came::Different,
            run: after,
        }
    }
}

// Reads a part of the store.
fn stored<R: Read>(input: &mut R, part: &mut [u8], run: Run) -> Step {
    if input.read_exact(part).is_err() {
        return cut(run);
    }
    Step {
        came: Came::Same,
        run,
    }
}

// Reads the run's bytes, and takes the run by value from them.
fn begun<R: Read>(input: &mut R, bytes: &mut [u8], run: Run) -> Step {
    let n = bytes.len();
    if n < RUN_SIZE {
        return cut(run);
    }
    if input.read_exact(bytes).is_err() {
        return cut(run);
    }
    Step {
        came: Came::Same,
        run: run_at(&bytes[0..RUN_SIZE]),
    }
}

// Reads the rest of a row whose part is from `at` to `end`.
fn taken<R: Read>(
    input: &mut R,
    sort: u8,
    at: usize,
    end: usize,
    store: &mut [u8],
    bytes: &mut [u8],
    run: Run,
) -> Step
    requires { at ≤ end }
{
    if store.len() < end {
        return cut(run);
    }
    match sort {
        BYTES => stored(input, &mut store[at..end], run),
        RUN => begun(input, bytes, run),
        _ => compared(input, sort, &store[at..end], bytes, run),
    }
}

// Counts what a row came to; one that is cut counts as one of another sort that differs.
fn tallied(t: Tallies, sort: u8, wrong: bool, came: Came) -> Tallies {
    match came {
        Came::Same => counted(t, index(sort), wrong, true),
        Came::Different => counted(t, index(sort), wrong, false),
        Came::Cut => counted(t, 0, false, false),
    }
}

// The row with this head.
fn headed<R: Read>(
    input: &mut R,
    head: &[u8; 6],
    store: &mut [u8],
    bytes: &mut [u8],
    run: Run,
) -> Step {
    let at = fields::u16_at(head, 2) as usize;
    let length = fields::u16_at(head, 4) as usize;
    taken(input, head[0], at, at + length, store, bytes, run)
}

// The next row.
fn next<R: Read>(
    input: &mut R,
    state: State,
    store: &mut [u8; 65536],
    bytes: &mut [u8; 32],
) -> State {
    let t = state.tallies;
    let run = state.run;
    let mut head = [0u8; 6];
    if input.read_exact(&mut head).is_err() {
        return State {
            tallies: tallied(t, 0, false, Came::Cut),
            run,
        };
    }
    let step = headed(input, &head, store, bytes, run);
    let came = step.came;
    let after = step.run;
    State {
        tallies: tallied(t, head[0], head[1] != 0, came),
        run: after,
    }
}

// The next four bytes of the input as a number; 0 where it ends.
fn number<R: Read>(input: &mut R) -> u32 {
    let mut bytes = [0u8; 4];
    let _ = input.read_exact(&mut bytes);
    fields::u32_at(&bytes, 0)
}

// As many rows as the input says first.
fn rows<R: Read>(input: &mut R) -> Tallies {
    let mut store = [0u8; 65536];
    let mut bytes = [0u8; 32];
    let mut state = State {
        tallies: tallies::none(),
        run: Run {
            answered: 0,
            refused: 0,
            latest: 0,
            first: 0,
            reading: 0,
            one: 0,
            two: 0,
            three: 0,
        },
    };
    for _ in 0..number(input) {
        state = next(input, state, &mut store, &mut bytes);
    }
    state.tallies
}

// Prints how many comparisons there are, and how many differ.
fn say(rt: &impl Print, what: &str, t: Tally) -> io::Result<()> {
    print!(rt; "{what}{} differ {}", t.done, t.differ)
}

// Prints the tallies of a sort.
fn say_sort(rt: &impl Print, what: &str, right: Tally, wrong: Tally) -> io::Result<()> {
    say(rt, what, right)?;
    say(rt, ", wrong ", wrong)?;
    println!(rt;)
}

// Those of rows that ask no run.
fn say_questions(rt: &impl Print, t: Tallies) -> io::Result<()> {
    let right = t.right;
    let wrong = t.wrong;
    say_sort(rt, "element rows ", right[1], wrong[1])?;
    say_sort(rt, "crest files ", right[2], wrong[2])?;
    say_sort(rt, "points ", right[3], wrong[3])?;
    say_sort(rt, "numbers ", right[4], wrong[4])
}

// Those of calls, of display pairs, and of moves.
fn say_calls(rt: &impl Print, t: Tallies) -> io::Result<()> {
    let right = t.right;
    let wrong = t.wrong;
    say_sort(rt, "calls ", right[5], wrong[5])?;
    say_sort(rt, "calls by value ", right[6], wrong[6])?;
    say_sort(rt, "calls in place ", right[7], wrong[7])?;
    say_sort(rt, "display pairs ", right[8], wrong[8])?;
    say_sort(rt, "sighted moves ", right[9], wrong[9])
}

// That of all other rows, where one differs.
fn say_others(rt: &impl Print, t: Tallies) -> io::Result<()> {
    let right = t.right;
    let wrong = t.wrong;
    let others = right[0];
    if others.differ > 0 {
        say_sort(rt, "other rows ", others, wrong[0])?;
    }
    Ok(())
}

fn main(rt: HostRuntime) -> io::Result<()> {
    let t = rows(&mut rt.reader());
    say_questions(&rt, t)?;
    say_calls(&rt, t)?;
    say_others(&rt, t)
}
