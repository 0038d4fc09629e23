// The published walk: what both passes over a crest have seen of a point.
#![tactic(auto)]

ghost use Rattle.std.specs.Prelude.{◌≡◌};
ghost use Rattle.plane.specs.Frame.{InFrame};
ghost use Rattle.sources.specs.Sources.{elements_lent, SourceAccepted};
ghost use Rattle.walk.specs.Search.{walked_of};

use model::Point;
use sources::Form;

mod passes;
mod visit;

// The two passes of the walk.
#[derive(Clone, Copy)]
pub enum Pass {
    First,
    Second,
}

// What the walk has seen: the least squared distance, the least station that has it, and how many stations were visited.
#[derive(Clone, Copy)]
pub struct Seen {
    pub best: u64,
    pub at: u64,
    pub visits: u64,
}

// The best that the walk starts with: it lies above every squared distance of a point in the frame.
const UNREACHED: u64 = 1 << 62;

// The walk. Station 0 is visited first and lies nearer than the best that it starts with.
pub fn walk(crest: &[u8], amendment: &[u8], form: Form, q: Point) -> Seen
    requires source_accepted { SourceAccepted form crest.now amendment.now }
    requires in_frame { InFrame q }
    ensures { result ≡ walked_of (elements_lent form crest.entry amendment.entry) q }
{
    let w = passes::pass_over(
        Pass::First,
        crest,
        amendment,
        form,
        q,
        Seen {
            best: UNREACHED,
            at: 0,
            visits: 0,
        },
    );
    passes::pass_over(Pass::Second, crest, amendment, form, q, w)
}
