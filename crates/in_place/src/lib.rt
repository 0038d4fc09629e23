// The run record, lent by the caller and changed where it lies: each by-value step, behind a reference.
#![tactic(auto)]

ghost use Rattle.std.specs.Prelude.{◌≡◌};
ghost use Rattle.model.specs.Crest.{file_crest};
ghost use Rattle.model.specs.Answers.{asked_paper};
ghost use Rattle.model.specs.Readings.{paper_of_reading};
ghost use Rattle.model.specs.Sightings.{observed_question, observed_to, observed_count};
ghost use Rattle.model.specs.Run.{noted, noted_paper, acknowledged};

use model::{Observation, ReadingAnswer, Run};

// A reading or a sighting on a run: counted, or refused with 16 where the run is full.
pub fn note(crest: &[u8], observation: Observation, run: &mut Run) -> ReadingAnswer
    ensures { (record { answer = result; run = run.new } ≡ noted (observed_to (file_crest crest.now) observation) run.old) × (paper_of_reading (observed_count observation) result ≡ noted_paper (asked_paper (observed_question observation) (file_crest crest.now)) run.old) }
{
    let noted = readings::note_file(crest, observation, *run);
    *run = noted.run;
    noted.answer
}

// Only the first refusal and its reading go.
pub fn acknowledge(run: &mut Run)
    ensures { run.new ≡ acknowledged run.old }
{
    *run = run::acknowledge(*run);
}
