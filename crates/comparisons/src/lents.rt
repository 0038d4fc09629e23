// Calls on a run record that is changed where it lies, one after the other: the same rows as by value, without a display pair.
ghost use Rattle.std.specs.Prelude.{◌≡◌};
ghost use Rattle.model.specs.Crest.{file_crest};
ghost use Rattle.model.specs.Sightings.{observed_to};
ghost use Rattle.comparisons.specs.Notes.{lent_told, lent_agrees};

use crate::notes::{Told, acknowledged, line, plane, same_answer, same_run, sighted};
use crate::said::Row;
use model::{Observation, Run};

// A reading or a sighting on a run.
fn noted(row: &Row, crest: &[u8], observation: Observation, run: Run) -> Told
    ensures { result ≡ lent_told row.now (observed_to (file_crest crest.now) observation) run }
{
    let came = lent_runs::note(crest, observation, run);
    let answer = came.answer;
    let after = came.run;
    Told {
        same: same_answer(row, answer) & same_run(row, after),
        run: after,
    }
}

// Whether the call of a row comes to what the row says, and the run after it.
pub fn agrees(row: &Row, crest: &[u8], run: Run) -> Told
    ensures { result ≡ lent_agrees row.now crest.now run }
{
    match row[0] {
        0 => noted(row, crest, plane(row), run),
        1 => noted(row, crest, line(row), run),
        2 => acknowledged(row, lent_runs::acknowledge(run)),
        3 => noted(row, crest, sighted(row, 96), run),
        _ => Told { same: false, run },
    }
}
