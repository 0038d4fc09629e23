// How many comparisons are done and how many of them differ, for each sort of them, with rows that are right and with rows that are wrong.
#![tactic(auto)]

ghost use Rattle.std.specs.Prelude.{◌≡◌, ◌<◌};
ghost use Rattle.tallies.specs.Compared.{tally_of, nothing_compared, compared, counted_at};

// The sorts that have a tally of their own.
const SORTS: u8 = 9;

#[derive(Clone, Copy)]
pub struct Tally {
    pub done: u64,
    pub differ: u64,
}

// The tallies of these sorts, each at its number, and at 0 that of all others: of rows that are right, and of rows that are wrong.
#[derive(Clone, Copy)]
pub struct Tallies {
    pub right: [Tally; 10],
    pub wrong: [Tally; 10],
}

pub fn none() -> Tallies
    ensures { result ≡ nothing_compared }
{
    Tallies {
        right: [Tally { done: 0, differ: 0 }; 10],
        wrong: [Tally { done: 0, differ: 0 }; 10],
    }
}

// Where the tally of a sort stands.
pub fn index(sort: u8) -> usize
    ensures value { result ≡ tally_of sort }
    ensures upper_bound { result < 10 }
{
    if sort <= SORTS { usize::from(sort) } else { 0 }
}

// One comparison more.
#[tactic(auto, unfolding(crate::specs::Compared::compared))]
fn with(t: Tally, same: bool) -> Tally
    ensures { result ≡ compared t same }
{
    let differ = if same {
        t.differ
    } else {
        t.differ.wrapping_add(1)
    };
    Tally {
        done: t.done.wrapping_add(1),
        differ,
    }
}

// One comparison more in the tally at k, with a row that is wrong or right.
#[tactic(auto, unfolding(crate::specs::Compared::counted_at))]
pub fn counted(mut t: Tallies, k: usize, wrong: bool, same: bool) -> Tallies
    requires { k < 10 }
    ensures { result ≡ counted_at k wrong t same }
{
    // An arm each: of an array picked by `&mut` in the `if`, a proof does not know what was written.
    if wrong {
        t.wrong[k] = with(t.wrong[k], same);
    } else {
        t.right[k] = with(t.right[k], same);
    }
    t
}
