// The calls for C, of include/probes.h: each is the function of `probes` under the same name, with its promise.
#![tactic(auto)]

ghost use Rattle.std.specs.Prelude.{◌≡◌, pos};
ghost use Rattle.model.specs.Crest.{file_crest};
ghost use Rattle.probes.specs.ProbeCalls.{position_call, locate_call, inverse_call, record_call};

// X, Y, Tx, Ty at a station, each i32: 18 first, for room that is not 16 bytes.
#[unsafe(no_mangle)]
pub extern "C" fn probe_position(crest: &[u8], station: u32, out: &mut [u8]) -> u32
    ensures { (result, out.new) ≡ position_call (file_crest crest.now) (pos station) out.old }
{
    probes::probe_position(crest, station, out)
}

// Station, offset and residual of a point, and how many stations were visited, each of 32 bits: 18 first, for room that is not 16 bytes.
#[unsafe(no_mangle)]
pub extern "C" fn probe_locate(crest: &[u8], x: i32, y: i32, out: &mut [u8]) -> u32
    ensures { (result, out.new) ≡ locate_call (file_crest crest.now) (record { x = x; y = y }) out.old }
{
    probes::probe_locate(crest, x, y, out)
}

// X, Y at a station and an offset, each i32: 18 first, for room that is not 8 bytes.
#[unsafe(no_mangle)]
pub extern "C" fn probe_inverse(crest: &[u8], station: u32, offset: i32, out: &mut [u8]) -> u32
    ensures { (result, out.new) ≡ inverse_call (file_crest crest.now) (pos station) offset out.old }
{
    probes::probe_inverse(crest, station, offset, out)
}

// The 32 bytes of record i, counted from 0: 18 first, for room that is not 32 bytes; then the crest's own refusals; then 15.
#[unsafe(no_mangle)]
pub extern "C" fn probe_record(crest: &[u8], i: u32, out: &mut [u8]) -> u32
    ensures { (result, out.new) ≡ record_call crest.now i out.old }
{
    probes::probe_record(crest, i, out)
}
