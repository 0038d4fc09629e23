// The calls of the logger's C firmware: numbers and lent bytes.
#![tactic(auto)]

ghost use Rattle.std.specs.Prelude.{false, ◌≡◌, length};
ghost use Rattle.model.specs.declared.Reading.TheVariants.{PlanePoint, LinePlace};
ghost use Rattle.model.specs.Crest.{file_crest};
ghost use Rattle.model.specs.Refusals.{verdict};
ghost use Rattle.model.specs.Answers.{code, paper_of_outcome};
ghost use Rattle.model.specs.Readings.{answer_to, paper_of_reading};
ghost use Rattle.model.specs.Sightings.{sighted_to};
ghost use Rattle.model.specs.Run.{run_size, shown_of, is_full, run_at};
ghost use Rattle.model.specs.Calls.{run_rules, reading_call, acknowledge_call, check_call, write_call, stake_out_call, sighting_of, sighting_stake_out_call};
ghost use Rattle.run.specs.Stored.{Storable};
ghost use Rattle.codes.specs.Codes.{Codable};

use codes::{answer_code, answer_move, outcome_code};
use model::{Reading, ReadingAnswer, Sighting, layout, refusals};
use plane::point;
use run::{acknowledge, count_answer, is_full};
use run_bytes::{put_run, run_at};
use sources::{Form, no_amendment};

// The check of a file.
pub fn crest_check(crest: &[u8]) -> u32
    ensures { result ≡ check_call (file_crest crest.now) }
{
    let checked = entries::check(crest);
    outcome_code(checked)
}

// The file of these records at the front of the room; a refusal leaves the room as it came.
pub fn crest_write(records: &[u8], room: &mut [u8]) -> u32
    ensures { (result, room.new) ≡ write_call records.now room.old }
{
    let written = alignment::write::write(records, room);
    outcome_code(written)
}

// The move from a stake's own point to its target under a heading: 18 first, for room that is not 8 bytes.
pub fn crest_stake_out(
    own_x: i32,
    own_y: i32,
    target_x: i32,
    target_y: i32,
    heading_c: i32,
    heading_s: i32,
    move_bytes: &mut [u8],
) -> u32
    ensures { (result, move_bytes.new) ≡ stake_out_call (record { x = own_x; y = own_y }) (record { x = target_x; y = target_y }) heading_c heading_s move_bytes.old }
{
    if move_bytes.len() != layout::MOVE_SIZE {
        return refusals::WRONG_ROOM;
    }
    let answer = stakes::stake_out(
        point(own_x, own_y),
        point(target_x, target_y),
        heading_c as i64,
        heading_s as i64,
    );
    answer_move(answer, move_bytes)
}

// Only the first refusal and its reading go: 18 for bytes that are no run.
pub fn crest_acknowledge(run: &mut [u8]) -> u32
    ensures { (result, run.new) ≡ acknowledge_call run.old }
{
    let len = run.len();
    if len != layout::RUN_SIZE {
        return refusals::WRONG_ROOM;
    }
    let state = run_at(run);
    let cleared = acknowledge(state);
    put_run(run, cleared);
    0
}

// What the run's bytes refuse a reading or a sighting with: 18 where they are no run, 16 where the run is full; then the crest is not looked at. Else 0.
fn refusal_of(run: &[u8]) -> u32
    ensures { result ≡ code (paper_of_outcome (verdict (run_rules run.now))) }
{
    if run.len() != layout::RUN_SIZE {
        return refusals::WRONG_ROOM;
    }
    if is_full(run_at(run)) {
        return refusals::RUN_FULL;
    }
    0
}

// What a reading or a sighting came to, counted on a run that takes it.
fn kept(answer: ReadingAnswer, run: &mut [u8]) -> u32
    requires run_len { length run.old ≡ run_size }
    requires run_value { is_full (run_at run.old) ≡ false }
    requires storable { Storable (shown_of answer) }
    requires codable { Codable (paper_of_reading 0 answer) }
    ensures { (result, run.new) ≡ reading_call answer run.old }
{
    let state = run_at(run);
    let noted = count_answer(answer, state);
    let after = noted.run;
    put_run(run, after);
    answer_code(answer)
}

// A reading on a run.
fn note_reading(crest: &[u8], reading: Reading, run: &mut [u8]) -> u32
    ensures { (result, run.new) ≡ reading_call (answer_to (file_crest crest.now) reading) run.old }
{
    let refused = refusal_of(run);
    if refused != 0 {
        return refused;
    }
    kept(
        readings::read(crest, no_amendment(crest), Form::File, reading),
        run,
    )
}

// A sighting of the numbers that a call gets.
fn sighting_of(
    x: i32,
    y: i32,
    backsight_c: i32,
    backsight_s: i32,
    angle_c: i32,
    angle_s: i32,
    distance: i32,
) -> Sighting
    ensures { result ≡ sighting_of x y backsight_c backsight_s angle_c angle_s distance }
{
    Sighting {
        x,
        y,
        backsight_c,
        backsight_s,
        angle_c,
        angle_s,
        distance,
    }
}

// A sighting on a run.
fn note_sighting(crest: &[u8], sighting: Sighting, run: &mut [u8]) -> u32
    ensures { (result, run.new) ≡ reading_call (sighted_to (file_crest crest.now) sighting) run.old }
{
    let number = refusal_of(run);
    if number != 0 {
        return number;
    }
    kept(
        readings::sight(crest, no_amendment(crest), Form::File, sighting),
        run,
    )
}

// Station and offset of a plane point, counted on a run.
pub fn crest_plane_reading(crest: &[u8], x: f64, y: f64, run: &mut [u8]) -> u32
    ensures { (result, run.new) ≡ reading_call (answer_to (file_crest crest.now) (PlanePoint x y)) run.old }
{
    note_reading(crest, Reading::PlanePoint { x, y }, run)
}

// The point at a station and an offset, counted on a run.
pub fn crest_line_reading(crest: &[u8], station: f64, offset: f64, run: &mut [u8]) -> u32
    ensures { (result, run.new) ≡ reading_call (answer_to (file_crest crest.now) (LinePlace station offset)) run.old }
{
    note_reading(crest, Reading::LinePlace { station, offset }, run)
}

// Station and offset of the point of a sighting, counted on a run. (station_x, station_y) is the place of the instrument.
pub fn crest_sighting_reading(
    crest: &[u8],
    station_x: i32,
    station_y: i32,
    backsight_c: i32,
    backsight_s: i32,
    angle_c: i32,
    angle_s: i32,
    distance: i32,
    run: &mut [u8],
) -> u32
    ensures { (result, run.new) ≡ reading_call (sighted_to (file_crest crest.now) (sighting_of station_x station_y backsight_c backsight_s angle_c angle_s distance)) run.old }
{
    note_sighting(
        crest,
        sighting_of(
            station_x,
            station_y,
            backsight_c,
            backsight_s,
            angle_c,
            angle_s,
            distance,
        ),
        run,
    )
}

// The move of a stake that was sighted to its target: 18 first, for room that is not 8 bytes.
pub fn crest_sighting_stake_out(
    station_x: i32,
    station_y: i32,
    backsight_c: i32,
    backsight_s: i32,
    angle_c: i32,
    angle_s: i32,
    distance: i32,
    target_x: i32,
    target_y: i32,
    move_bytes: &mut [u8],
) -> u32
    ensures { (result, move_bytes.new) ≡ sighting_stake_out_call (sighting_of station_x station_y backsight_c backsight_s angle_c angle_s distance) (record { x = target_x; y = target_y }) move_bytes.old }
{
    let room = move_bytes.len();
    if room != layout::MOVE_SIZE {
        return refusals::WRONG_ROOM;
    }
    let sighting = sighting_of(
        station_x,
        station_y,
        backsight_c,
        backsight_s,
        angle_c,
        angle_s,
        distance,
    );
    let answer = sightings::stake_out(sighting, point(target_x, target_y));
    answer_move(answer, move_bytes)
}
