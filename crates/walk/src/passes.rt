// The two passes of the walk: over one element's own stations, and over all elements.
ghost use Rattle.std.specs.Prelude.{cond, ◌≡◌, ◌+◌, ◌≤◌};
ghost use Rattle.model.specs.Acceptance.{longest_element};
ghost use Rattle.model.specs.Stations.{D};
ghost use Rattle.model.specs.Walk.{element_visits};
ghost use Rattle.plane.specs.Frame.{InFrame};
ghost use Rattle.sources.specs.Sources.{elements_lent, SourceAccepted};
ghost use Rattle.elements.specs.Extent.{unreached};
ghost use Rattle.walk.specs.Search.{countable_before_element, countable_before_pass, seen_over, on_element, first_on, end_visit, pass_on, pass_over, Passable};

use crate::visit::Stride;
use crate::{Pass, Seen, visit};
use elements::Prepared;
use model::{Point, limits};
use sources::{Form, count_in, element_in};

// Added before a division by the step, it rounds up.
const STEP_ROUND_UP: u64 = limits::FIRST_STEP - 1;

// The first pass over an element's own stations: those that are multiples of 1000.
fn multiples_on(p: Prepared, own: u64, start: u64, q: Point, w: Seen) -> Seen
    requires { Passable p own start q w }
    ensures { result ≡ seen_over (on_element p.element start q) (first_on own start) w }
{
    let end = start + own;
    let mut s = (start + STEP_ROUND_UP) / limits::FIRST_STEP * limits::FIRST_STEP;
    let mut v = w;
    while s < end {
        v = visit::seen(visit::distance(p, s - start, q), s, v);
        s += limits::FIRST_STEP;
    }
    v
}

// T, the last element's end, where it is no multiple of 1000.
fn end_on(p: Prepared, own: u64, start: u64, q: Point, w: Seen) -> Seen
    requires { Passable p own start q w }
    ensures { result ≡ seen_over (on_element p.element start q) (end_visit p.element.length own start) w }
{
    let e = p.element;
    let n = e.length;
    if own == n {
        return w;
    }
    let t = start + n;
    if t % limits::FIRST_STEP == 0 {
        return w;
    }
    visit::seen(visit::distance(p, n, q), t, w)
}

// The second pass over an element's own stations.
fn second_on(p: Prepared, own: u64, start: u64, q: Point, w: Seen) -> Seen
    requires { Passable p own start q w }
    ensures { result ≡ seen_over (on_element p.element start q) (element_visits (on_element p.element start q) own own start w.best) w }
{
    let end = start + own;
    let mut s = start;
    let mut v = w;
    let mut t = Stride {
        root: 0,
        limit: 0,
        skip: 0,
    };
    while s < end {
        let d = visit::distance(p, s - start, q);
        t = visit::stepped(d, v.best, t);
        v = visit::seen(d, s, v);
        s = s + 1 + t.skip;
    }
    v
}

// A pass over an element's own stations.
fn pass_on(pass: Pass, p: Prepared, own: u64, start: u64, q: Point, w: Seen) -> Seen
    requires passable { Passable p own start q w }
    requires visits_le_countable_before_element { w.visits ≤ countable_before_element }
    ensures { result ≡ pass_on pass (on_element p.element start q) p.element.length own start w }
{
    match pass {
        Pass::First => end_on(p, own, start, q, multiples_on(p, own, start, q, w)),
        Pass::Second => second_on(p, own, start, q, w),
    }
}

// How many stations are an element's own, of one that is n mm long: T is the last one's.
fn own_of(n: u64, last: bool) -> u64
    requires { n ≤ longest_element }
    ensures { result ≡ cond last (n + 1) n }
{
    if last {
        return n + 1;
    }
    n
}

// A pass over all elements, each read and prepared once.
pub fn pass_over(pass: Pass, crest: &[u8], amendment: &[u8], form: Form, q: Point, w: Seen) -> Seen
    requires source_accepted { SourceAccepted form crest.now amendment.now }
    requires in_frame { InFrame q }
    requires best_le_unreached { (w.best ≤ unreached) × (w.visits ≤ countable_before_pass) }
    ensures { result ≡ pass_over pass (D (elements_lent form crest.entry amendment.entry) q) (elements_lent form crest.entry amendment.entry) 0 w }
{
    let count = count_in(crest, amendment, form);
    let mut i: usize = 0;
    let mut start: u64 = 0;
    let mut v = w;
    while i < count {
        let p = elements::prepare(element_in(crest, amendment, form, i));
        let e = p.element;
        let n = e.length;
        let own = own_of(n, i + 1 == count);
        v = pass_on(pass, p, own, start, q, v);
        i += 1;
        start += n;
    }
    v
}
