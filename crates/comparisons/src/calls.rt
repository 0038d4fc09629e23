// Calls on a run record, one after the other: a row's sort of call, the count of the run's bytes that are lent, the returned
// value, two f64 numbers, the run's bytes afterwards, and the seven numbers of a sighting.
ghost use Rattle.std.specs.Prelude.{◌≡◌};
ghost use Rattle.model.specs.Crest.{file_crest};
ghost use Rattle.model.specs.Sightings.{sighted_to};
ghost use Rattle.model.specs.Calls.{reading_call};
ghost use Rattle.comparisons.specs.Agreement.{called_by, run_is, call_agrees, run_after_call};

use crate::notes::sighting;
use crate::said::Row;
use crest::{crest_acknowledge, crest_line_reading, crest_plane_reading, crest_sighting_reading};
use fields::eight::{float, u64_at};
use model::Sighting;

// What the call of a sighting returns.
fn sighted(k: Sighting, crest: &[u8], run: &mut [u8]) -> u32
    ensures { (result, run.new) ≡ reading_call (sighted_to (file_crest crest.now) k) run.old }
{
    crest_sighting_reading(
        crest,
        k.x,
        k.y,
        k.backsight_c,
        k.backsight_s,
        k.angle_c,
        k.angle_s,
        k.distance,
        run,
    )
}

// What the call of a row returns; no call returns 2^32 - 1.
fn value(row: &Row, crest: &[u8], run: &mut [u8]) -> u32
    ensures { (result, run.new) ≡ called_by row.now crest.now run.old }
{
    let one = float(u64_at(row, 8));
    let two = float(u64_at(row, 16));
    match row[0] {
        0 => crest_plane_reading(crest, one, two, run),
        1 => crest_line_reading(crest, one, two, run),
        2 => crest_acknowledge(run),
        3 => sighted(sighting(row, 56), crest, run),
        _ => 0xffff_ffff,
    }
}

// Whether the run's 32 bytes are those of the row.
fn same_run(row: &Row, run: &[u8]) -> bool
    ensures { result ≡ run_is row.now run.now }
{
    if run.len() != 32 {
        return false;
    }
    (u64_at(run, 0) == u64_at(row, 24))
        & (u64_at(run, 8) == u64_at(row, 32))
        & (u64_at(run, 16) == u64_at(row, 40))
        & (u64_at(run, 24) == u64_at(row, 48))
}

fn wide(x: u8) -> usize
    ensures { result ≡ x }
{
    x as usize
}

// Whether the call of a row returns what the row says, and leaves such a run.
pub fn agrees(row: &Row, crest: &[u8], run: &mut [u8]) -> bool
    ensures value { result ≡ call_agrees row.now crest.now run.old }
    ensures run_after { run.new ≡ run_after_call row.now crest.now run.old }
{
    let lent = wide(row[1]);
    if run.len() < lent {
        return false;
    }
    let v = value(row, crest, &mut run[0..lent]);
    (v == fields::u32_at(row, 4)) & same_run(row, run)
}
