// Calls on a run record by value, one after the other: a row's sort of call, its answer, two f64 numbers, four values, the run
// afterwards, the display pair, and the seven numbers of a sighting.
ghost use Rattle.std.specs.Prelude.{◌≡◌, ◌+◌, ◌≤◌, length};
ghost use Rattle.model.specs.Records.{part};
ghost use Rattle.model.specs.Crest.{file_crest};
ghost use Rattle.model.specs.Sightings.{observed_to};
ghost use Rattle.model.specs.Run.{run_size, run_at};
ghost use Rattle.comparisons.specs.Notes.{plane_of, line_of, sighting_at, sighted_at, head_is, answer_is, same_fields, run_in, display_is_at, acknowledged_told, noted_told, note_agrees};

use crate::said::{Row, float_is_at, is_at};
use fields::eight::{float, u64_at};
use model::{Display, Observation, Reading, ReadingAnswer, Run, Sighting};
use run_bytes::run_at;

// Whether a call agrees with its row, and the run after it.
#[derive(Clone, Copy)]
pub struct Told {
    pub same: bool,
    pub run: Run,
}

// The plane point of a row's two numbers.
pub fn plane(row: &Row) -> Observation
    ensures { result ≡ plane_of row.now }
{
    let x = float(u64_at(row, 8));
    let y = float(u64_at(row, 16));
    Observation::Read(Reading::PlanePoint { x, y })
}

// The line place of them.
pub fn line(row: &Row) -> Observation
    ensures { result ≡ line_of row.now }
{
    let station = float(u64_at(row, 8));
    let offset = float(u64_at(row, 16));
    Observation::Read(Reading::LinePlace { station, offset })
}

// The sighting of the seven numbers from `at` on.
pub fn sighting(row: &Row, at: usize) -> Sighting
    requires { at + 28 ≤ 124 }
    ensures { result ≡ sighting_at row.now at }
{
    Sighting {
        x: fields::i32_at(row, at),
        y: fields::i32_at(row, at + 4),
        backsight_c: fields::i32_at(row, at + 8),
        backsight_s: fields::i32_at(row, at + 12),
        angle_c: fields::i32_at(row, at + 16),
        angle_s: fields::i32_at(row, at + 20),
        distance: fields::i32_at(row, at + 24),
    }
}

// That as an observation.
pub fn sighted(row: &Row, at: usize) -> Observation
    requires { at + 28 ≤ 124 }
    ensures { result ≡ sighted_at row.now at }
{
    Observation::Sighted(sighting(row, at))
}

// Whether the row's answer is of this case, with this number and place.
fn same_head(row: &Row, case: u8, number: u32, place: u32) -> bool
    ensures { result ≡ head_is row.now case number place }
{
    (row[1] == case)
        & (fields::u16_at(row, 2) as u32 == number)
        & (fields::u16_at(row, 4) as u32 == place)
}

// Whether an answer is the row's; a refusal has zeros for values.
pub fn same_answer(row: &Row, answer: ReadingAnswer) -> bool
    ensures { result ≡ answer_is row.now answer }
{
    match answer {
        ReadingAnswer::PlanePoint {
            station,
            offset,
            residual,
            visits,
        } => {
            same_head(row, 1, 0, 0)
                & (station == u64_at(row, 24))
                & is_at(row, 32, offset)
                & is_at(row, 40, residual)
                & (visits == u64_at(row, 48))
        }
        ReadingAnswer::LinePlace { x, y } => {
            same_head(row, 2, 0, 0)
                & is_at(row, 24, x)
                & is_at(row, 32, y)
                & is_at(row, 40, 0)
                & is_at(row, 48, 0)
        }
        ReadingAnswer::Refused(why) => {
            same_head(row, 3, why.number, why.place)
                & is_at(row, 24, 0)
                & is_at(row, 32, 0)
                & is_at(row, 40, 0)
                & is_at(row, 48, 0)
        }
    }
}

// Whether two runs have the same fields.
fn same_fields(a: Run, b: Run) -> bool
    ensures { result ≡ same_fields a b }
{
    (a.answered == b.answered)
        & (a.refused == b.refused)
        & (a.latest == b.latest)
        & (a.first == b.first)
        & (a.reading == b.reading)
        & (a.one == b.one)
        & (a.two == b.two)
        & (a.three == b.three)
}

// The run that a row's 24 bytes spell.
fn spelt(row: &[u8]) -> Run
    requires { length row.now ≡ 124 }
    ensures { result ≡ run_at (part row.now 56 run_size) }
{
    run_at(&row[56..80])
}

// Whether a run is that one, in which the zero is one.
pub fn same_run(row: &Row, run: Run) -> bool
    ensures { result ≡ run_in row.now run }
{
    same_fields(spelt(row), run) & (fields::u16_at(row, 66) == 0)
}

// Whether a display pair is the row's, bit for bit.
pub fn same_display(row: &Row, at: usize, d: Display) -> bool
    requires { at + 16 ≤ 124 }
    ensures { result ≡ display_is_at row.now at d }
{
    float_is_at(row, at, d.station) & float_is_at(row, at + 8, d.offset)
}

// An acknowledgement that left this run: it has no answer, and no display pair.
pub fn acknowledged(row: &Row, after: Run) -> Told
    ensures { result ≡ acknowledged_told row.now after }
{
    Told {
        same: same_head(row, 0, 0, 0)
            & is_at(row, 24, 0)
            & is_at(row, 32, 0)
            & is_at(row, 40, 0)
            & is_at(row, 48, 0)
            & is_at(row, 80, 0)
            & is_at(row, 88, 0)
            & same_run(row, after),
        run: after,
    }
}

// A reading or a sighting on a run.
fn noted(row: &Row, crest: &[u8], observation: Observation, run: Run) -> Told
    ensures { result ≡ noted_told row.now (observed_to (file_crest crest.now) observation) run }
{
    let came = entries::note(crest, observation, run);
    let answer = came.answer;
    let shown = came.display;
    let after = came.run;
    Told {
        same: same_answer(row, answer) & same_display(row, 80, shown) & same_run(row, after),
        run: after,
    }
}

// Whether the call of a row comes to what the row says, and the run after it.
pub fn agrees(row: &Row, crest: &[u8], run: Run) -> Told
    ensures { result ≡ note_agrees row.now crest.now run }
{
    match row[0] {
        0 => noted(row, crest, plane(row), run),
        1 => noted(row, crest, line(row), run),
        2 => acknowledged(row, entries::acknowledge(run)),
        3 => noted(row, crest, sighted(row, 96), run),
        _ => Told { same: false, run },
    }
}
