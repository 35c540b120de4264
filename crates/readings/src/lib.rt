// The demodulator's readings, and the receiver that takes them. Document 02, R-3.
#![tactic(auto)]

ghost use Rattle.std.specs.Prelude.{◌≡◌, cond, map, ◌+◌, ◌-◌, ◌/◌, ◌%◌, ◌≤◌, min, T, pos, neg_ℤ, nat_abs, length as size};
ghost use Rattle.std.proofs.lemmas.List.Edits.{sets};
ghost use Rattle.line.specs.Table.{every};
ghost use Rattle.line.specs.Refusal.{numbered};
ghost use Rattle.levels.specs.Levels.{rounded, in_reach};
ghost use Rattle.levels.specs.Fields.{size_of};
ghost use Rattle.receiver.specs.Receiver.{point};
ghost use Rattle.receiver.specs.Calls.{after, EachAccepted};
ghost use Rattle.bulk.specs.Hearing.{Holds};
ghost use Rattle.bulk.specs.Block as Many;
ghost use Rattle.bulk.specs.Block.{in_levels, points_of, answers_to, parts, wrote, sizes, coordinate_fault, fault_of, block, parts_after};
ghost use Rattle.readings.specs.Reading.{levels, in_units, reading_outcome, Told};

use levels::Levels;
use line::{Point, Refusal};
use receiver::{Outcome, Receiver};

// A point in levels, a squelched interval with its power, a hole with its count of intervals.
#[derive(Clone, Copy)]
pub enum Reading {
    Point(Levels),
    Squelch(f32),
    Hole(u32),
}

// What a receiver takes for a reading: a point in units, or a gap.
#[derive(Clone, Copy)]
pub enum Units {
    Point(Point),
    Gap(u32),
}

// Half of 2^17, less one where no digit is left below 2^-17 units.
fn half_of(digits: u32) -> u32
    ensures { result ≡ 65535 + (digits % 256 + 255) / 256 }
{
    if digits % 256 == 0 { 65535 } else { 65536 }
}

// The whole number nearest a size in reach, from its bit pattern. w counts 2^-17 units; the digits below them only say whether w is less
// than all. Adding half a unit, less one where nothing is left, and one more where the number below is odd, makes the division round, ties
// to even. A size below a quarter of a unit gives 0, whatever its exponent. There is no branch, since in random digits one would be
// guessed wrong half of the time, and all fits 32 bits: so four are rounded at once.
#[tactic(auto, using(levels::proofs::FieldLaws::shift_fits, levels::proofs::FieldLaws::shifted_below, levels::proofs::FieldLaws::half_below, levels::proofs::FieldLaws::fields_units))]
fn size_in_units(n: u32) -> i32
    requires { size_of (n / 8388608) (n % 8388608) ≤ 16384 }
    ensures { result ≡ pos (size_of (n / 8388608) (n % 8388608)) }
{
    let digits = 8388608 + n % 8388608;
    let field = n - n % 8388608;
    let half = half_of(digits);
    // How far the exponent's field is above that of 2^-12 levels, a quarter of a unit; 0 for a smaller size.
    let above = field.saturating_sub(964689920);
    let w = (digits / 256) << (above / 8388608);
    let units = (w + half + w / 131072 % 2) / 131072;
    units as i32
}

#[tactic(auto, using(levels::proofs::SignLaws::n_back, levels::proofs::SignLaws::minus_fits, levels::proofs::SignLaws::minus_back))]
fn with_sign(negative: bool, n: i32) -> i32
    requires { nat_abs n ≤ 16384 }
    ensures { result ≡ cond negative (neg_ℤ n) n }
{
    if negative { -n } else { n }
}

// The whole number nearest 1024 times a coordinate in reach, ties to even, from its bits.
fn nearest(v: f32) -> i16
    requires { T (in_reach v) }
    ensures { result ≡ rounded v }
{
    let b = f32::to_bits(v);
    let n = size_in_units(b % 2147483648);
    with_sign(2147483648 <= b, n) as i16
}

// A point's coordinates into units.
#[tactic(auto, using(crate::proofs::ReadingLaws::both_reached, crate::proofs::ReadingLaws::point_reached, crate::proofs::ReadingLaws::point_far, crate::proofs::ReadingLaws::point_not_finite))]
fn point_in_units(p: Levels) -> Result<Units, Refusal>
    ensures { result ≡ in_units (levels p) }
{
    let re = p.re;
    let im = p.im;
    if levels::in_reach(re) & levels::in_reach(im) {
        return Ok(Units::Point(Point {
            re: nearest(re),
            im: nearest(im),
        }));
    }
    if levels::is_finite(re) & levels::is_finite(im) {
        Err(Refusal::Coordinate)
    } else {
        Err(Refusal::NotFinite)
    }
}

// A reading as a receiver takes it, or what refuses it after the state's refusals.
#[tactic(auto, using(crate::proofs::ReadingLaws::levels_in_units, crate::proofs::ReadingLaws::squelch_in_units, crate::proofs::ReadingLaws::squelch_not_finite, crate::proofs::ReadingLaws::hole_in_units))]
pub fn in_units(reading: Reading) -> Result<Units, Refusal>
    ensures { result ≡ in_units reading }
{
    match reading {
        Reading::Point(p) => point_in_units(p),
        Reading::Squelch(power) => {
            if levels::is_finite(power) {
                Ok(Units::Gap(1))
            } else {
                Err(Refusal::NotFinite)
            }
        }
        Reading::Hole(n) => Ok(Units::Gap(n)),
    }
}

// A reading, for any state and any reading.
pub fn receive_reading(s: Receiver, reading: Reading) -> Result<Outcome, Refusal>
    ensures value { result ≡ reading_outcome s reading }
    ensures told { Told s reading result }
{
    match in_units(reading) {
        Ok(Units::Point(p)) => receiver::receive_point(s, p.re, p.im),
        Ok(Units::Gap(n)) => receiver::receive_gap(s, n),
        Err(refusal) => {
            receiver::state_fault(s)?;
            Err(refusal)
        }
    }
}

// ---- many points

// What refuses one of the coordinates. Nearly always nothing does, and one pass is enough.
#[tactic(auto, using(crate::proofs::LevelLaws::none_refused, crate::proofs::LevelLaws::one_not_finite, crate::proofs::LevelLaws::one_far))]
fn coordinates_fault(levels: &[f32]) -> Result<(), Refusal>
    ensures { numbered result ≡ coordinate_fault (in_levels levels.now) }
{
    if levels::all_in_reach(levels) {
        return Ok(());
    }
    line::need(levels::all_finite(levels), Refusal::NotFinite)?;
    Err(Refusal::Coordinate)
}

// What refuses a block of so many numbers, with so much lent for line bits, data bits and distances. `coordinates` is what refuses one of
// them.
#[tactic(auto, unfolding(bulk::specs::Block::fault_of, bulk::specs::Block::places_ok))]
fn block_fault(
    s: Receiver,
    count: usize,
    coordinates: Result<(), Refusal>,
    line: usize,
    plain: usize,
    distance: usize,
) -> Result<(), Refusal>
    ensures { numbered result ≡ fault_of s count (numbered coordinates) (record { line = line; plain = plain; distance = distance }) }
{
    receiver::state_fault(s)?;
    let n = count / 2;
    let lent = (count % 2 == 0) & (n <= line) & (n <= plain) & (n <= distance);
    line::need(lent, Refusal::Lent)?;
    coordinates?;
    line::need(n <= (u32::MAX - s.place.0) as usize, Refusal::Intervals)
}

// Puts coordinates into units, from the front of the lent numbers on.
#[tactic(auto, using(crate::proofs::LevelLaws::put_start, crate::proofs::LevelLaws::put_step, crate::proofs::LevelLaws::put_end))]
fn put_units(levels: &[f32], units: &mut [i16])
    requires { T (every in_reach levels.now) × (size levels.now ≤ size units.old) }
    ensures { units.new ≡ sets units.old 0 (map rounded levels.now) }
{
    for (k, level) in levels.iter().enumerate() {
        units[k] = nearest(*level);
    }
}

// Points in levels that nothing refuses: as many as the lent numbers hold are put into units and taken as these are, and so on. So all
// points come through the one loop; that a run in units is looked at again costs less than a second caller of it would.
fn hear_levels(
    s: Receiver,
    levels: &[f32],
    units: &mut [i16],
    line: &mut [u8],
    plain: &mut [u8],
    distance: &mut [u32],
) -> Receiver
    requires { T (every in_reach levels.now) × (2 ≤ size units.old) × (size levels.now % 2 ≡ 0) × EachAccepted s (map point (points_of (in_levels levels.now))) × Holds (map rounded levels.now) (parts line.old plain.old distance.old) }
    ensures { (result ≡ after s (map point (points_of (in_levels levels.now))))
        × (parts line.new plain.new distance.new ≡ wrote (parts line.old plain.old distance.old) 0 (answers_to s (points_of (in_levels levels.now)))) }
{
    let size = units.len() / 2 * 2;
    let mut t = s;
    let mut k = 0;
    for part in levels.chunks(size) {
        let count = part.len();
        put_units(part, units);
        t = bulk::receive_points(
            t,
            &units[..count],
            &mut line[k..],
            &mut plain[k..],
            &mut distance[k..],
        )
        .unwrap_or(t);
        k += count / 2;
    }
    t
}

// Takes points in levels, re and im in turn, as `receive_points` takes them in units.
pub fn receive_levels(
    s: Receiver,
    levels: &[f32],
    line: &mut [u8],
    plain: &mut [u8],
    distance: &mut [u32],
) -> Result<Receiver, Refusal>
    ensures value { (result ≡ block s (in_levels levels.now) (sizes (parts line.old plain.old distance.old)))
        × (parts line.new plain.new distance.new ≡ parts_after s (in_levels levels.now) (parts line.old plain.old distance.old)) }
    ensures told { Many.Told s (in_levels levels.now) (sizes (parts line.old plain.old distance.old)) result }
{
    let coordinates = coordinates_fault(levels);
    block_fault(
        s,
        levels.len(),
        coordinates,
        line.len(),
        plain.len(),
        distance.len(),
    )?;
    let mut units = [0; 1024];
    Ok(hear_levels(s, levels, &mut units, line, plain, distance))
}
