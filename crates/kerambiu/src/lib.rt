// The calls for C and Rust, by their exported names. What each does is in the crates that it calls; include/kerambiu.h declares them.
#![tactic(auto)]

ghost use Rattle.std.specs.Prelude.{◌≡◌, [], ◌∷◌, leb, length as size};
ghost use Rattle.std.proofs.lemmas.List.Edits.{sets};
ghost use Rattle.line.specs.Refusal.{need};
ghost use Rattle.line.specs.Point.{at};
ghost use Rattle.receiver.specs.Receiver.{point, gap};
ghost use Rattle.store.specs.Reads.{read_number, read_count, read_result};
ghost use Rattle.track.specs.Append.{make_number, make_result, lost_number, lost_result, point_number, point_result};
ghost use Rattle.track.specs.Points.{points_number, points_result};
ghost use Rattle.listing.specs.Text.{text, list_number, list_result};
ghost use Rattle.readings.specs.Reading.{levels, squelch, hole};
ghost use Rattle.bulk.specs.Block.{in_units, in_levels, parts};
ghost use Rattle.lent_receiver.specs.Receiving.{fresh_number, fresh_state, call_number, call_state, call_answer, block_number, block_state, block_parts};
ghost use Rattle.lent_readings.specs.Reading.{reading_number, reading_state, reading_bytes};
ghost use Rattle.lent_sender.specs.Sending.{open_number, open_state, open_out, send_number, send_state, send_out};
ghost use Rattle.v41.specs.Block.{make_refusal, make_bytes};
ghost use Rattle.kerambiu.specs.Summing.{sums_number, sums_result};
ghost use Rattle.kerambiu.specs.Blocks.{whole_number, whole_result, run_number, run_out, run_result};
ghost use Rattle.kerambiu.specs.Counted.{counted_number, counted_out, counted_counts};

use levels::Levels;
use line::{Refusal, number_of};
use readings::Reading;

// ---- the receiver's calls

// A receiver that has taken nothing: 0, or the number that refuses it.
#[unsafe(no_mangle)]
pub extern "C" fn kerambiu_fresh(state: &mut [u8], mode: u8, role: u8) -> u8
    ensures { (result ≡ fresh_number state.old mode role) × (state.new ≡ fresh_state state.old mode role) }
{
    number_of(lent_receiver::fresh(state, mode, role))
}

// A point: 0, or the number that refuses it.
#[unsafe(no_mangle)]
pub extern "C" fn kerambiu_receive_point(
    state: &mut [u8],
    re: i16,
    im: i16,
    answer: &mut [u8],
) -> u8
    ensures { (result ≡ call_number state.old answer.old (point (at re im))) × (state.new ≡ call_state state.old answer.old (point (at re im))) × (answer.new ≡ call_answer state.old answer.old (point (at re im))) }
{
    number_of(lent_receiver::receive_point(state, re, im, answer))
}

// Points, re and im in turn, all or none: 0, or the number that refuses them.
#[unsafe(no_mangle)]
pub extern "C" fn kerambiu_receive_points(
    state: &mut [u8],
    points: &[i16],
    line: &mut [u8],
    plain: &mut [u8],
    distance: &mut [u32],
) -> u8
    ensures { (result ≡ block_number state.old (in_units points.now) (parts line.old plain.old distance.old))
        × (state.new ≡ block_state state.old (in_units points.now) (parts line.old plain.old distance.old))
        × (parts line.new plain.new distance.new ≡ block_parts state.old (in_units points.now) (parts line.old plain.old distance.old)) }
{
    number_of(lent_receiver::receive_points(state, points, line, plain, distance))
}

// A gap of n intervals: 0, or the number that refuses it.
#[unsafe(no_mangle)]
pub extern "C" fn kerambiu_receive_gap(state: &mut [u8], n: u32, answer: &mut [u8]) -> u8
    ensures { (result ≡ call_number state.old answer.old (gap n)) × (state.new ≡ call_state state.old answer.old (gap n)) × (answer.new ≡ call_answer state.old answer.old (gap n)) }
{
    number_of(lent_receiver::receive_gap(state, n, answer))
}

// ---- the demodulator's readings

// A point in levels: 0, or the number that refuses it.
#[unsafe(no_mangle)]
pub extern "C" fn kerambiu_receive_levels(
    state: &mut [u8],
    re: f32,
    im: f32,
    answer: &mut [u8],
) -> u8
    ensures { (result ≡ reading_number state.old answer.old (levels (record { re = re; im = im }))) × (state.new ≡ reading_state state.old answer.old (levels (record { re = re; im = im }))) × (answer.new ≡ reading_bytes state.old answer.old (levels (record { re = re; im = im }))) }
{
    number_of(lent_readings::receive_reading(state, Reading::Point(Levels { re, im }), answer))
}

// A squelched interval with its power: 0, or the number that refuses it.
#[unsafe(no_mangle)]
pub extern "C" fn kerambiu_receive_squelch(state: &mut [u8], power: f32, answer: &mut [u8]) -> u8
    ensures { (result ≡ reading_number state.old answer.old (squelch power)) × (state.new ≡ reading_state state.old answer.old (squelch power)) × (answer.new ≡ reading_bytes state.old answer.old (squelch power)) }
{
    number_of(lent_readings::receive_reading(state, Reading::Squelch(power), answer))
}

// A hole of n intervals: 0, or the number that refuses it.
#[unsafe(no_mangle)]
pub extern "C" fn kerambiu_receive_hole(state: &mut [u8], n: u32, answer: &mut [u8]) -> u8
    ensures { (result ≡ reading_number state.old answer.old (hole n)) × (state.new ≡ reading_state state.old answer.old (hole n)) × (answer.new ≡ reading_bytes state.old answer.old (hole n)) }
{
    number_of(lent_readings::receive_reading(state, Reading::Hole(n), answer))
}

// Points in levels, re and im in turn, all or none: 0, or the number that refuses them.
#[unsafe(no_mangle)]
pub extern "C" fn kerambiu_receive_level_points(
    state: &mut [u8],
    levels: &[f32],
    line: &mut [u8],
    plain: &mut [u8],
    distance: &mut [u32],
) -> u8
    ensures { (result ≡ block_number state.old (in_levels levels.now) (parts line.old plain.old distance.old))
        × (state.new ≡ block_state state.old (in_levels levels.now) (parts line.old plain.old distance.old))
        × (parts line.new plain.new distance.new ≡ block_parts state.old (in_levels levels.now) (parts line.old plain.old distance.old)) }
{
    number_of(lent_receiver::receive_levels(state, levels, line, plain, distance))
}

// ---- the sender's calls

// Opens a sender: its training stands in `out` from `offset` on. 0, or the number that refuses it. Without room for the state
// the offset is one past the end of `out`, so that number 7 is left where no lower one applies.
#[unsafe(no_mangle)]
pub extern "C" fn kerambiu_open(
    state: &mut [u8],
    mode: u8,
    role: u8,
    length: u32,
    out: &mut [i16],
    offset: usize,
) -> u8
    ensures { (result ≡ open_number state.old mode role length out.old offset) × (state.new ≡ open_state state.old mode role length out.old offset) × (out.new ≡ open_out state.old mode role length out.old offset) }
{
    number_of(lent_sender::open(state, mode, role, length, out, offset))
}

// Sends data bits, one in a byte: their points stand in `out` from `offset` on. 0, or the number that refuses it.
#[unsafe(no_mangle)]
pub extern "C" fn kerambiu_send(
    state: &mut [u8],
    input: &[u8],
    out: &mut [i16],
    offset: usize,
) -> u8
    ensures { (result ≡ send_number state.old input.now out.old offset) × (state.new ≡ send_state state.old input.now out.old offset) × (out.new ≡ send_out state.old input.now out.old offset) }
{
    number_of(lent_sender::send(state, input, out, offset))
}

// ---- the track store's calls

#[unsafe(no_mangle)]
pub extern "C" fn kerambiu_make(store: &mut [u8], mode: u8, role: u8) -> u8
    ensures { (result ≡ make_number store.old mode role) × (store.new ≡ make_result store.old mode role) }
{
    number_of(track::make(store, mode, role))
}

#[unsafe(no_mangle)]
pub extern "C" fn kerambiu_append_point(store: &mut [u8], re: i16, im: i16) -> u8
    ensures { (result ≡ point_number store.old (at re im)) × (store.new ≡ point_result store.old (at re im)) }
{
    number_of(track::append_point(store, re, im))
}

#[unsafe(no_mangle)]
pub extern "C" fn kerambiu_append_lost(store: &mut [u8], n: u32) -> u8
    ensures { (result ≡ lost_number store.old n) × (store.new ≡ lost_result store.old n) }
{
    number_of(track::append_lost(store, n))
}

#[unsafe(no_mangle)]
pub extern "C" fn kerambiu_append_points(store: &mut [u8], points: &[i16]) -> u8
    ensures { (result ≡ points_number store.old points.now) × (store.new ≡ points_result store.old points.now) }
{
    number_of(track::append_points(store, points))
}

// Reads all events, three numbers for each, into `out` from `offset` on, and how many there are into `count`: 0, or the number
// that refuses it.
#[unsafe(no_mangle)]
pub extern "C" fn kerambiu_read(
    store: &[u8],
    out: &mut [i64],
    offset: usize,
    count: &mut [usize],
) -> u8
    ensures { (result ≡ counted_number count.old (read_number store.now (size out.old) offset)) × (out.new ≡ counted_out count.old (read_result store.now out.old offset) out.old) × (count.new ≡ counted_counts count.old (read_number store.now (size out.old) offset) (read_count store.now (size out.old) offset)) }
{
    if count.len() < 1 {
        return 7;
    }
    match track::read(store, out, offset) {
        Ok(events) => {
            count[0] = events;
            0
        }
        Err(refusal) => refusal.number(),
    }
}

// Writes the listing of a store into `out`, and how many bytes it has into `count`: 0, or the number that refuses it.
#[unsafe(no_mangle)]
pub extern "C" fn kerambiu_list(store: &[u8], out: &mut [u8], count: &mut [usize]) -> u8
    ensures { (result ≡ counted_number count.old (list_number (size out.old))) × (out.new ≡ counted_out count.old (list_result store.now out.old) out.old) × (count.new ≡ counted_counts count.old (list_number (size out.old)) (size (text store.now))) }
{
    if count.len() < 1 {
        return 7;
    }
    match listing::list(store, out) {
        Ok(bytes) => {
            count[0] = bytes;
            0
        }
        Err(refusal) => refusal.number(),
    }
}

// Writes the sums of a store, P, L and G, into the first three of the lent numbers: 0, or the number that refuses it.
#[unsafe(no_mangle)]
pub extern "C" fn kerambiu_sums(store: &[u8], sums: &mut [u64]) -> u8
    ensures { (result ≡ sums_number store.now (size sums.old)) × (sums.new ≡ sums_result store.now sums.old) }
{
    if sums.len() < 3 {
        return 7;
    }
    match listing::sums(store) {
        Ok(v) => {
            sums[0] = v.points;
            sums[1] = v.lost;
            sums[2] = v.gaps;
            0
        }
        Err(refusal) => refusal.number(),
    }
}

// ---- V.41 blocks

// The settled data bits of the first run in the bytes that kerambiu_receive_points wrote, into `out`, and into `run` the point at which
// it begins, how many points it has and how many bits: 0, or the number that refuses it.
#[unsafe(no_mangle)]
pub extern "C" fn kerambiu_settled_bits(
    mode: u8,
    line: &[u8],
    plain: &[u8],
    out: &mut [u8],
    run: &mut [usize],
) -> u8
    ensures { (result ≡ run_number mode line.now plain.now out.old run.old) × (out.new ≡ run_out mode line.now plain.now out.old run.old) × (run.new ≡ run_result mode line.now plain.now out.old run.old) }
{
    if run.len() < 3 {
        return if line::mode_ok(mode) { 7 } else { 1 };
    }
    match settled::settled_bits(mode, line, plain, out) {
        Ok(found) => {
            run[0] = found.first;
            run[1] = found.points;
            run[2] = found.bits;
            0
        }
        Err(refusal) => refusal.number(),
    }
}

// Whether a block is accepted, into the first of the lent bytes: 0, or 7 where there is none.
fn tell_whole(whole: &mut [u8], accepted: u8) -> u8
    ensures { (result ≡ need (leb 1 (size whole.old)) 7 0) × (whole.new ≡ sets whole.old 0 (accepted ∷ [])) }
{
    octets::put8(whole, 0, accepted);
    number_of(line::need(1 <= whole.len(), Refusal::Lent))
}

// Checks a block, and writes 1 for an accepted one or 0 into the first of the lent bytes: 0, or the number that refuses it.
#[unsafe(no_mangle)]
pub extern "C" fn kerambiu_v41_check(bits: &[u8], whole: &mut [u8]) -> u8
    ensures { (result ≡ whole_number bits.now whole.old) × (whole.new ≡ whole_result bits.now whole.old) }
{
    match v41::check(bits) {
        Ok(accepted) => tell_whole(whole, u8::from(accepted)),
        Err(refusal) => refusal.number(),
    }
}

// Makes a block of service and information bits at the front of `out`: 0, or the number that refuses it.
#[unsafe(no_mangle)]
pub extern "C" fn kerambiu_v41_make(bits: &[u8], out: &mut [u8]) -> u8
    ensures { (result ≡ make_refusal bits.now (size out.old)) × (out.new ≡ make_bytes bits.now out.old) }
{
    match v41::make(bits, out) {
        Ok(_) => 0,
        Err(refusal) => refusal.number(),
    }
}
