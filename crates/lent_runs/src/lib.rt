// A run of the caller's own, lent to be changed where it lies.
#![tactic(auto)]

ghost use Rattle.std.specs.Prelude.{◌≡◌};
ghost use Rattle.model.specs.Crest.{file_crest};
ghost use Rattle.model.specs.Sightings.{observed_to};
ghost use Rattle.model.specs.Run.{noted, acknowledged};

use model::{Noted, Observation, Run};

// A reading or a sighting on it: what that came to, and the run afterwards.
pub fn note(crest: &[u8], observation: Observation, run: Run) -> Noted
    ensures { result ≡ noted (observed_to (file_crest crest.now) observation) run }
{
    let mut lent = run;
    let answer = in_place::note(crest, observation, &mut lent);
    Noted { answer, run: lent }
}

// The acknowledgement on it.
pub fn acknowledge(run: Run) -> Run
    ensures { result ≡ acknowledged run }
{
    let mut lent = run;
    in_place::acknowledge(&mut lent);
    lent
}
