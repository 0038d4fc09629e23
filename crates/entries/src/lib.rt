// The entries for callers in Rattle, of a crest file: bytes are lent, numbers and answers go by value, and a run by value or in place. Each answer is the one
// that document 01 defines, and `paper` says the same by its number, place and values.
#![tactic(auto)]

ghost use Rattle.std.specs.Prelude.{[], ◌≡◌, length};
ghost use Rattle.model.specs.Writer.{writer_outcome, written};
ghost use Rattle.model.specs.Crest.{file_crest, check_of};
ghost use Rattle.model.specs.Answers.{paper_if, paper_of_outcome, paper_after, asked_paper, reader_outcome, station_question, placed, paper_of_placed, point_question, located, paper_of_located, place_question, inverse as inverse_in, paper_of_inverse, move_question, stake_out, paper_of_move};
ghost use Rattle.model.specs.Readings.{paper_of_reading, display_of};
ghost use Rattle.model.specs.Sightings.{observed_question, observed_to, observed_count, sighted_move_question, sighted_move};
ghost use Rattle.model.specs.Run.{noted_paper};
ghost use Rattle.entries.specs.Entries.{noted_reading};

pub use alignment::part::record_part;
pub use in_place::{acknowledge as acknowledge_in_place, note as note_in_place};
use model::{
    Display, Inverse, Located, Move, Observation, Outcome, Placed, Point, ReadingAnswer, Run,
    Sighting,
};
pub use run::acknowledge;
use sources::{Form, no_amendment};

// What a reading or a sighting on a run came to, its display pair, and the run afterwards.
#[derive(Clone, Copy)]
pub struct NotedReading {
    pub answer: ReadingAnswer,
    pub display: Display,
    pub run: Run,
}

// The check of a file.
pub fn check(file: &[u8]) -> Outcome
    ensures value { result ≡ check_of (file_crest file.now) }
    ensures paper { paper_of_outcome result ≡ paper_if (check_of (file_crest file.now)) [] }
{
    alignment::check::check(file, no_amendment(file), Form::File)
}

// What the reader of record r comes to.
pub fn record_outcome(file: &[u8], r: usize) -> Outcome
    ensures value { result ≡ reader_outcome file.now r }
    ensures paper { paper_of_outcome result ≡ paper_if (reader_outcome file.now r) [] }
{
    alignment::part::record_outcome(file, r)
}

// The file of these records at the front of the room; a refusal leaves the room as it came.
pub fn write(records: &[u8], room: &mut [u8]) -> Outcome
    ensures value { result ≡ writer_outcome records.now (length room.old) }
    ensures room_after { room.new ≡ written records.now room.old }
    ensures paper { paper_of_outcome result ≡ paper_if (writer_outcome records.now (length room.old)) [] }
{
    alignment::write::write(records, room)
}

// The position and the direction at a station.
pub fn position(file: &[u8], s: i64) -> Placed
    ensures value { result ≡ placed (file_crest file.now) s }
    ensures paper { paper_of_placed result ≡ asked_paper (station_question s) (file_crest file.now) }
{
    questions::position(file, no_amendment(file), Form::File, s)
}

// Station and offset of a point.
pub fn locate(file: &[u8], q: Point) -> Located
    ensures value { result ≡ located (file_crest file.now) q }
    ensures paper { paper_of_located result ≡ asked_paper (point_question q) (file_crest file.now) }
{
    questions::locate(file, no_amendment(file), Form::File, q)
}

// The point at a station and an offset.
pub fn inverse(file: &[u8], s: i64, w: i64) -> Inverse
    ensures value { result ≡ inverse_in (file_crest file.now) s w }
    ensures paper { paper_of_inverse result ≡ asked_paper (place_question s w) (file_crest file.now) }
{
    questions::inverse(file, no_amendment(file), Form::File, s, w)
}

// How far to move a stake.
pub fn stake_out(own: Point, target: Point, c: i64, s: i64) -> Move
    ensures value { result ≡ stake_out own target c s }
    ensures paper { paper_of_move result ≡ paper_after [] (move_question own target c s) }
{
    stakes::stake_out(own, target, c, s)
}

// How far to move a stake that was sighted.
pub fn sighting_stake_out(sighting: Sighting, target: Point) -> Move
    ensures value { result ≡ sighted_move sighting target }
    ensures paper { paper_of_move result ≡ paper_after [] (sighted_move_question sighting target) }
{
    sightings::stake_out(sighting, target)
}

// What a reading or a sighting comes to on a crest, without a run.
pub fn answer(file: &[u8], observation: Observation) -> ReadingAnswer
    ensures value { result ≡ observed_to (file_crest file.now) observation }
    ensures paper { paper_of_reading (observed_count observation) result ≡ asked_paper (observed_question observation) (file_crest file.now) }
{
    readings::answer(file, no_amendment(file), Form::File, observation)
}

// The display pair of it.
pub fn display(file: &[u8], observation: Observation) -> Display
    ensures { result ≡ display_of (observed_to (file_crest file.now) observation) }
{
    let came = answer(file, observation);
    run::display::display(came)
}

// A reading or a sighting on a run: counted, or refused with 16 where the run is full.
pub fn note(file: &[u8], observation: Observation, run: Run) -> NotedReading
    ensures value { result ≡ noted_reading (observed_to (file_crest file.now) observation) run }
    ensures paper { paper_of_reading (observed_count observation) result.answer ≡ noted_paper (asked_paper (observed_question observation) (file_crest file.now)) run }
{
    let noted = readings::note_file(file, observation, run);
    let answer = noted.answer;
    let after = noted.run;
    NotedReading {
        answer,
        display: run::display::display(answer),
        run: after,
    }
}
