// Moves of sightings: a row's refusal number, forward and left, the seven numbers of the sighting, and the target.
ghost use Rattle.std.specs.Prelude.{◌≡◌};
ghost use Rattle.comparisons.specs.Agreement.{move_is, move_agrees};

use crate::notes::sighting;
use crate::said::{Row, is_at};
use model::{Move, Point};

// Whether a move is the row's; a refusal has zeros for forward and left, and no place.
fn same(row: &Row, moved: Move) -> bool
    ensures { result ≡ move_is row.now moved }
{
    let number = fields::u32_at(row, 0);
    match moved {
        Move::By { forward, left } => {
            (number == 0) & is_at(row, 8, forward) & is_at(row, 16, left)
        }
        Move::Refused(why) => {
            (number != 0)
                & (why.number == number)
                & (why.place == 0)
                & is_at(row, 8, 0)
                & is_at(row, 16, 0)
        }
    }
}

// Whether the move of the row's sighting to its target is what the row says.
pub fn agrees(row: &Row) -> bool
    ensures { result ≡ move_agrees row.now }
{
    let target = Point {
        x: fields::i32_at(row, 52) as i64,
        y: fields::i32_at(row, 56) as i64,
    };
    same(row, entries::sighting_stake_out(sighting(row, 24), target))
}
