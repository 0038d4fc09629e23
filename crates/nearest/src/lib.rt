// Station and offset of a point by the published walk.
#![tactic(auto)]

ghost use Rattle.std.specs.Prelude.{[], ◌≡◌};
ghost use Rattle.model.specs.Answers.{paper_after, point_question, located_on, paper_of_located};
ghost use Rattle.sources.specs.Sources.{elements_lent, SourceAccepted};

use model::{Located, Point, Refusal, limits, refusals};
use sources::Form;

mod sides;

// No station for a point: the refusal with this number.
fn not_located(number: u32) -> Located
    ensures { result ≡ Located.Refused (record { number = number; place = 0 }) }
{
    Located::Refused(Refusal { number, place: 0 })
}

// Station and offset of a point, with the residual and the count of visits, or the refusal: 11, 12, 13, 14, in this order.
pub fn locate(crest: &[u8], amendment: &[u8], form: Form, q: Point) -> Located
    requires { SourceAccepted form crest.now amendment.now }
    ensures value { result ≡ located_on (elements_lent form crest.entry amendment.entry) q }
    ensures paper { paper_of_located result ≡ paper_after [] (point_question q (elements_lent form crest.entry amendment.entry)) }
{
    if !plane::in_frame(q.x, q.y) {
        return not_located(refusals::OUTSIDE_FRAME);
    }
    let w = walk::walk(crest, amendment, form, q);
    if w.best > limits::FARTHEST {
        return not_located(refusals::TOO_FAR);
    }
    let d = sides::to_point(stations::placed_at(crest, amendment, form, w.at), q);
    if sides::before_start(w.at, d.residual) {
        return not_located(refusals::BEFORE_START);
    }
    if sides::after_end(w.at, stations::total(crest, amendment, form), d.residual) {
        return not_located(refusals::AFTER_END);
    }
    Located::At {
        station: w.at,
        offset: d.offset,
        residual: d.residual,
        visits: w.visits,
    }
}
