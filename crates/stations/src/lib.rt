// Stations of an accepted crest: how far they run, where one lies, and what is asked by station.
#![tactic(auto)]

ghost use Rattle.std.specs.Prelude.{◌&&◌, [], ◌≡◌, ◌≤◌, ◌<◌, ◌^◌, leb, nat_abs, ◌*ℤ◌};
ghost use Rattle.model.specs.Acceptance.{longest_alignment};
ghost use Rattle.model.specs.Stations.{at_element, at_station, position_at, tangent_at, is_station, total as total_of};
ghost use Rattle.elements.specs.Reached.{placement_of};
ghost use Rattle.model.specs.Rounding.{ONE, near};
ghost use Rattle.model.specs.Answers.{paper_after, station_question, placed_on, paper_of_placed, widest_offset, inverse_at, place_question, inverse_on, paper_of_inverse};
ghost use Rattle.model.specs.Accepted.{Accepted};
ghost use Rattle.sources.specs.Sources.{elements_lent, SourceAccepted};

use elements::Placement;
use integers::magnitude;
use model::{Element, Inverse, Placed, Point, Refusal, limits, refusals};
use plane::in_frame;
use rounding::near_one;
use sources::{Form, count_in, element_in};

// Where a station lies: its element, with its number counted from 0, and the mm from the element's start.
#[derive(Clone, Copy)]
pub struct OnElement {
    pub number: usize,
    pub element: Element,
    pub s: u64,
}

// T, the last station: the sum of the lengths.
pub fn total(crest: &[u8], amendment: &[u8], form: Form) -> u64
    requires { SourceAccepted form crest.now amendment.now }
    ensures { (result ≡ total_of (elements_lent form crest.entry amendment.entry)) × (result ≤ longest_alignment) }
{
    let count = count_in(crest, amendment, form);
    let mut i: usize = 0;
    let mut t: u64 = 0;
    while i < count {
        let e = element_in(crest, amendment, form, i);
        t += e.length;
        i += 1;
    }
    t
}

// The element where a station lies. A station at a join lies on the later element, T on the last.
pub fn element_of(crest: &[u8], amendment: &[u8], form: Form, s: u64) -> OnElement
    requires source_accepted { SourceAccepted form crest.now amendment.now }
    requires s_bound { s ≤ total_of (elements_lent form crest amendment) }
    ensures s_value { at_station (elements_lent form crest.entry amendment.entry) s ≡ at_element result.number result.element result.s }
    ensures reachable { Accepted result.element × (result.s ≤ result.element.length) }
{
    let count = count_in(crest, amendment, form);
    let mut i: usize = 0;
    let mut rest = s;
    while i + 1 < count {
        let e = element_in(crest, amendment, form, i);
        let n = e.length;
        if rest < n {
            return OnElement {
                number: i,
                element: e,
                s: rest,
            };
        }
        rest -= n;
        i += 1;
    }
    let last = element_in(crest, amendment, form, i);
    OnElement {
        number: i,
        element: last,
        s: rest,
    }
}

// The position and the direction at a station.
pub fn placed_at(crest: &[u8], amendment: &[u8], form: Form, s: u64) -> Placement
    requires source_accepted { SourceAccepted form crest.now amendment.now }
    requires s_bound { s ≤ total_of (elements_lent form crest amendment) }
    ensures { result ≡ placement_of (position_at (elements_lent form crest.entry amendment.entry) s) (tangent_at (elements_lent form crest.entry amendment.entry) s) }
{
    let at = element_of(crest, amendment, form, s);
    let e = at.element;
    elements::placed(elements::prepare(e), at.s)
}

// Whether a whole number is a station: 0 to T.
fn is_station(crest: &[u8], amendment: &[u8], form: Form, s: i64) -> bool
    requires { SourceAccepted form crest.now amendment.now }
    ensures { result ≡ is_station (elements_lent form crest.entry amendment.entry) s }
{
    if s < 0 {
        return false;
    }
    s as u64 <= total(crest, amendment, form)
}

// The position and the direction at a station, and 15 for one that is out of range.
pub fn place(crest: &[u8], amendment: &[u8], form: Form, s: i64) -> Placed
    requires { SourceAccepted form crest.now amendment.now }
    ensures value { result ≡ placed_on (elements_lent form crest.entry amendment.entry) s }
    ensures paper { paper_of_placed result ≡ paper_after [] (station_question s (elements_lent form crest.entry amendment.entry)) }
{
    if !is_station(crest, amendment, form, s) {
        return Placed::Refused(Refusal {
            number: refusals::ASKED_OUT_OF_RANGE,
            place: 0,
        });
    }
    let p = placed_at(crest, amendment, form, s as u64);
    Placed::At {
        x: p.x,
        y: p.y,
        tx: p.tx,
        ty: p.ty,
    }
}

// Whether a station and an offset are both in range: an offset is at most 20,000,000 grains to either side.
fn on_line(crest: &[u8], amendment: &[u8], form: Form, s: i64, w: i64) -> bool
    requires { SourceAccepted form crest.now amendment.now }
    ensures { result ≡ (is_station (elements_lent form crest.entry amendment.entry) s && leb (nat_abs w) widest_offset) }
{
    if !is_station(crest, amendment, form, s) {
        return false;
    }
    magnitude(w) <= limits::WIDEST_OFFSET
}

// An offset along a component of the direction.
fn offset_along(w: i64, t: i64) -> i64
    requires { (nat_abs w ≤ widest_offset) × (nat_abs t < 2 ^ 31) }
    ensures { result ≡ near (w *ℤ t) ONE }
{
    near_one(w * t)
}

// The point at a station and an offset, in the frame or not.
fn inverse_at(crest: &[u8], amendment: &[u8], form: Form, s: u64, w: i64) -> Point
    requires source_accepted { SourceAccepted form crest.now amendment.now }
    requires s_bound { s ≤ total_of (elements_lent form crest amendment) }
    requires w_bound { nat_abs w ≤ widest_offset }
    ensures { result ≡ inverse_at (elements_lent form crest.entry amendment.entry) s w }
{
    let p = placed_at(crest, amendment, form, s);
    let back = offset_along(w, p.ty);
    let on = offset_along(w, p.tx);
    Point {
        x: p.x - back,
        y: p.y + on,
    }
}

// The point at a station and an offset: 15 where either is out of range, 11 where the point lies outside the frame.
pub fn inverse(crest: &[u8], amendment: &[u8], form: Form, s: i64, w: i64) -> Inverse
    requires { SourceAccepted form crest.now amendment.now }
    ensures value { result ≡ inverse_on (elements_lent form crest.entry amendment.entry) s w }
    ensures paper { paper_of_inverse result ≡ paper_after [] (place_question s w (elements_lent form crest.entry amendment.entry)) }
{
    if !on_line(crest, amendment, form, s, w) {
        return Inverse::Refused(Refusal {
            number: refusals::ASKED_OUT_OF_RANGE,
            place: 0,
        });
    }
    let q = inverse_at(crest, amendment, form, s as u64, w);
    if !in_frame(q.x, q.y) {
        return Inverse::Refused(Refusal {
            number: refusals::OUTSIDE_FRAME,
            place: 0,
        });
    }
    Inverse::At { x: q.x, y: q.y }
}
