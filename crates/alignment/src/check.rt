// The check of a crest: its own refusals, in their order.
ghost use Rattle.std.specs.Prelude.{[], ◌≡◌};
ghost use Rattle.model.specs.Crest.{check_of};
ghost use Rattle.sources.specs.Sources.{crest_lent};
ghost use Rattle.model.specs.Answers.{paper_if, paper_of_outcome};

use joins::check_joins;
use model::Outcome;
use sources::{Form, check_layout, check_records};

// Of any bytes: the layout, each record, the joins.
pub fn check(crest: &[u8], amendment: &[u8], form: Form) -> Outcome
    ensures value { result ≡ check_of (crest_lent form crest.entry amendment.entry) }
    ensures paper { paper_of_outcome result ≡ paper_if (check_of (crest_lent form crest.entry amendment.entry)) [] }
{
    match check_layout(crest, amendment, form) {
        Outcome::Refused(layout) => return Outcome::Refused(layout),
        Outcome::Done => {}
    }
    match check_records(crest, amendment, form) {
        Outcome::Refused(own) => return Outcome::Refused(own),
        Outcome::Done => {}
    }
    check_joins(crest, amendment, form)
}
