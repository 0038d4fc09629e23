// The joins of a crest: gaps and kinks between an element and the next.
#![tactic(auto)]

ghost use Rattle.std.specs.Prelude.{[], ◌≡◌, leb, nat_abs, ◌-ℤ◌};
ghost use Rattle.model.specs.Refusals.{verdict};
ghost use Rattle.model.specs.Acceptance.{close_by, each_join};
ghost use Rattle.sources.specs.Sources.{records_in, SourceAccepted};
ghost use Rattle.joins.specs.Joins.{Small, SmallPoint, SmallPlacement, position_in, direction_in, placed_rules};
ghost use Rattle.model.specs.Answers.{paper_if, paper_of_outcome};

use elements::Placement;
use integers::magnitude;
use model::{Outcome, Point, limits, refusals, refused};
use sources::{Form, count_in, element_in};

// Whether two numbers differ by at most n.
fn close(n: u64, a: i64, b: i64) -> bool
    requires small { Small a }
    requires small_2 { Small b }
    ensures { result ≡ leb (nat_abs (a -ℤ b)) n }
{
    magnitude(a - b) <= n
}

// Whether two points differ by at most n in each coordinate.
fn close_by(n: u64, p: Point, q: Point) -> bool
    requires small_point { SmallPoint p }
    requires small_point_2 { SmallPoint q }
    ensures { result ≡ close_by n p q }
{
    if !close(n, p.x, q.x) {
        return false;
    }
    close(n, p.y, q.y)
}

// (X, Y) of a placement.
fn position_in(p: Placement) -> Point
    ensures { result ≡ position_in p }
{
    Point { x: p.x, y: p.y }
}

// (Tx, Ty) of a placement.
fn direction_in(p: Placement) -> Point
    ensures { result ≡ direction_in p }
{
    Point { x: p.tx, y: p.ty }
}

// The join after record r, from where its element ends and where the next begins: the gap before the kink.
fn check_join(last: Placement, first: Placement, r: u32) -> Outcome
    requires small_placement { SmallPlacement last }
    requires small_placement_2 { SmallPlacement first }
    ensures { result ≡ verdict (placed_rules last first r) }
{
    let meets = close_by(limits::WIDEST_GAP, position_in(last), position_in(first));
    let continues = close_by(limits::WIDEST_KINK, direction_in(last), direction_in(first));
    if !meets {
        return refused(refusals::GAP, r);
    }
    if !continues {
        return refused(refusals::KINK, r);
    }
    Outcome::Done
}

// 8 and 9: every join of elements that are accepted one by one. An element is prepared once, and its end is kept for the join after it.
pub fn check_joins(crest: &[u8], amendment: &[u8], form: Form) -> Outcome
    requires { SourceAccepted form crest.now amendment.now }
    ensures value { result ≡ verdict (each_join (records_in form crest.now amendment.now)) }
    ensures paper { paper_of_outcome result ≡ paper_if (verdict (each_join (records_in form crest.now amendment.now))) [] }
{
    let count = count_in(crest, amendment, form);
    let head = element_in(crest, amendment, form, 0);
    let mut last = elements::placed(elements::prepare(head), head.length);
    let mut r: usize = 0;
    while r + 1 < count {
        let e = element_in(crest, amendment, form, r + 1);
        let p = elements::prepare(e);
        match check_join(last, elements::placed(p, 0), r as u32) {
            Outcome::Refused(x) => return Outcome::Refused(x),
            Outcome::Done => {}
        }
        last = elements::placed(p, e.length);
        r += 1;
    }
    Outcome::Done
}
