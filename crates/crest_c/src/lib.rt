// The calls for C, of include/crest.h: each is the function of `crest` under the same name, with its promise.
#![tactic(auto)]

ghost use Rattle.std.specs.Prelude.{◌≡◌};
ghost use Rattle.model.specs.declared.Reading.TheVariants.{PlanePoint, LinePlace};
ghost use Rattle.model.specs.Crest.{file_crest};
ghost use Rattle.model.specs.Readings.{answer_to};
ghost use Rattle.model.specs.Sightings.{sighted_to};
ghost use Rattle.model.specs.Calls.{reading_call, acknowledge_call, check_call, write_call, stake_out_call, sighting_of, sighting_stake_out_call};

// The check of a file.
#[unsafe(no_mangle)]
pub extern "C" fn crest_check(crest: &[u8]) -> u32
    ensures { result ≡ check_call (file_crest crest.now) }
{
    crest::crest_check(crest)
}

// The file of these records at the front of the room; a refusal leaves the room as it came.
#[unsafe(no_mangle)]
pub extern "C" fn crest_write(records: &[u8], room: &mut [u8]) -> u32
    ensures { (result, room.new) ≡ write_call records.now room.old }
{
    crest::crest_write(records, room)
}

// The move from a stake's own point to its target under a heading: 18 first, for room that is not 8 bytes.
#[unsafe(no_mangle)]
pub extern "C" fn crest_stake_out(
    own_x: i32,
    own_y: i32,
    target_x: i32,
    target_y: i32,
    heading_c: i32,
    heading_s: i32,
    move_bytes: &mut [u8],
) -> u32
    ensures { (result, move_bytes.new) ≡ stake_out_call (record { x = own_x; y = own_y }) (record { x = target_x; y = target_y }) heading_c heading_s move_bytes.old }
{
    crest::crest_stake_out(
        own_x, own_y, target_x, target_y, heading_c, heading_s, move_bytes,
    )
}

// Only the first refusal and its reading go: 18 for bytes that are no run.
#[unsafe(no_mangle)]
pub extern "C" fn crest_acknowledge(run: &mut [u8]) -> u32
    ensures { (result, run.new) ≡ acknowledge_call run.old }
{
    crest::crest_acknowledge(run)
}

// Station and offset of a plane point, counted on a run.
#[unsafe(no_mangle)]
pub extern "C" fn crest_plane_reading(crest: &[u8], x: f64, y: f64, run: &mut [u8]) -> u32
    ensures { (result, run.new) ≡ reading_call (answer_to (file_crest crest.now) (PlanePoint x y)) run.old }
{
    crest::crest_plane_reading(crest, x, y, run)
}

// The point at a station and an offset, counted on a run.
#[unsafe(no_mangle)]
pub extern "C" fn crest_line_reading(crest: &[u8], station: f64, offset: f64, run: &mut [u8]) -> u32
    ensures { (result, run.new) ≡ reading_call (answer_to (file_crest crest.now) (LinePlace station offset)) run.old }
{
    crest::crest_line_reading(crest, station, offset, run)
}

// Station and offset of the point of a sighting, counted on a run. (station_x, station_y) is the place of the instrument.
#[unsafe(no_mangle)]
pub extern "C" fn crest_sighting_reading(
    crest: &[u8],
    station_x: i32,
    station_y: i32,
    backsight_c: i32,
    backsight_s: i32,
    angle_c: i32,
    angle_s: i32,
    distance: i32,
    run: &mut [u8],
) -> u32
    ensures { (result, run.new) ≡ reading_call (sighted_to (file_crest crest.now) (sighting_of station_x station_y backsight_c backsight_s angle_c angle_s distance)) run.old }
{
    crest::crest_sighting_reading(
        crest,
        station_x,
        station_y,
        backsight_c,
        backsight_s,
        angle_c,
        angle_s,
        distance,
        run,
    )
}

// The move of a stake that was sighted to its target: 18 first, for room that is not 8 bytes.
#[unsafe(no_mangle)]
pub extern "C" fn crest_sighting_stake_out(
    station_x: i32,
    station_y: i32,
    backsight_c: i32,
    backsight_s: i32,
    angle_c: i32,
    angle_s: i32,
    distance: i32,
    target_x: i32,
    target_y: i32,
    move_bytes: &mut [u8],
) -> u32
    ensures { (result, move_bytes.new) ≡ sighting_stake_out_call (sighting_of station_x station_y backsight_c backsight_s angle_c angle_s distance) (record { x = target_x; y = target_y }) move_bytes.old }
{
    crest::crest_sighting_stake_out(
        station_x,
        station_y,
        backsight_c,
        backsight_s,
        angle_c,
        angle_s,
        distance,
        target_x,
        target_y,
        move_bytes,
    )
}
