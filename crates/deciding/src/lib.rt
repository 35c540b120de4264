// Deciding a point: document 01.
#![tactic(auto)]

ghost use Rattle.std.specs.Prelude.{◌≡◌, true, false, ◌*◌, ◌/◌, ◌%◌, ◌^◌, ◌≤◌, ◌<◌, pos, get_or};
ghost use Rattle.line.specs.Point.{at, is_origin};
ghost use Rattle.deciding.specs.Distance.{apart as apartSpec, squared_distance, distance as distanceSpec, decision};
ghost use Rattle.deciding.specs.Laws.{Told};
ghost use Rattle.deciding.specs.Sizes.{bit_of, below_of, far_of, ring_of, ring_index};

use line::{Point, size};

// A squared distance in units, 1024 to one level: no count of bits and none of unit intervals.
#[derive(Clone, Copy)]
pub struct SquaredUnits(pub u32);

// What a point off the origin is decided as: a state, with the squared distance to its sent point.
#[derive(Clone, Copy)]
pub struct Decided {
    pub state: u8,
    pub distance: SquaredUnits,
}

// No sign and no size of a coordinate takes the code another way: it would be guessed wrong half of the time. A test becomes a
// number, and the numbers are summed to an index into a table.
fn bit(t: bool) -> usize
    ensures value { result ≡ bit_of t }
    ensures upper_bound { result ≤ 1 }
{
    if t { 1 } else { 0 }
}

fn one_if(t: bool) -> i16
    ensures { result ≡ pos (bit_of t) }
{
    if t { 1 } else { 0 }
}

// Whether a coordinate is below 0, or, with `one`, below 1.
fn below(x: i16, one: bool) -> bool
    ensures { result ≡ below_of x one }
{
    x < one_if(one)
}

// Whether the size y is the larger one by the measure of the mode's column: past the edge between the states of an axis and those
// beside it, or in mode 4 of level 3.
fn far(c: u8, x: u32, y: u32) -> bool
    requires { (c ≤ 4) × (x ≤ 32768) × (y ≤ 32768) }
    ensures { result ≡ far_of c x y }
{
    if c <= 1 {
        x < y
    } else if c == 2 {
        let a = x as u64;
        let b = y as u64;
        (a + b) * (a + b) < 2 * (b * b)
    } else if c == 3 {
        2 * x < y
    } else {
        2048 <= y
    }
}

// The rings: the states of the quadrants I, II, IV and III, in each those where no size is far, im's, re's, both.
const RING1: [u8; 16] = [0, 2, 0, 2, 2, 2, 4, 4, 6, 6, 0, 0, 4, 6, 4, 6];

const RING2: [u8; 16] = [1, 2, 0, 0, 3, 2, 4, 2, 7, 6, 0, 6, 5, 6, 4, 4];

const RING3: [u8; 16] = [13, 9, 13, 9, 9, 9, 1, 1, 5, 5, 13, 13, 1, 5, 1, 5];

const RING4: [u8; 16] = [12, 14, 13, 15, 8, 9, 10, 11, 4, 5, 6, 7, 0, 2, 1, 3];

// The ring of a mode, by its column.
fn ring_in(c: u8) -> [u8; 16]
    requires { c ≤ 4 }
    ensures { result ≡ ring_of c }
{
    if c <= 1 {
        RING1
    } else if c == 2 {
        RING2
    } else if c == 3 {
        RING3
    } else {
        RING4
    }
}

// The ring of a mode. A caller binds it once before a loop: a constant is built anew at each use.
pub fn ring_of(mode: u8) -> [u8; 16]
    ensures { result ≡ ring_of mode }
{
    ring_in(line::column_of(mode))
}

// Whether a point is the origin, which is no state.
pub fn is_origin(re: i16, im: i16) -> bool
    ensures { result ≡ is_origin (at re im) }
{
    (size(re) == 0) & (size(im) == 0)
}

// The place of a point off the origin in its ring, by its mode's column. There is one formula for all modes.
fn ring_index(c: u8, re: i16, im: i16) -> usize
    requires { c ≤ 4 }
    ensures value { result ≡ ring_index c re im }
    ensures upper_bound { result < 16 }
{
    let x = size(re);
    let y = size(im);
    let down = bit(below(im, !below(re, true)));
    let left = bit(below(re, below(im, false)));
    8 * down + 4 * left + (2 * bit(far(c, y, x)) + bit(far(c, x, y)))
}

// The state of a point off the origin, by its mode and the mode's ring, which the law `looked_up` asks for.
pub fn state_at(mode: u8, ring: &[u8; 16], re: i16, im: i16) -> u8
    ensures { result ≡ get_or ring.now (ring_index mode re im) 0 }
{
    ring[ring_index(line::column_of(mode), re, im)]
}

// The rings again, each state in four bits, the first lowest: so a single point's state needs no table in memory.
const PACKED1: u64 = 7233907340693610528;

const PACKED2: u64 = 4928451363331047457;

const PACKED3: u64 = 5859707947622964637;

const PACKED4: u64 = 3539959413393128940;

// The state at a place of a packed ring.
fn packed_at(ring: u64, i: usize) -> u8
    requires { i < 16 }
    ensures { result ≡ ring / 2 ^ (4 * i) % 16 }
{
    ((ring >> ((4 * i) as u32)) % 16) as u8
}

// The state of a point off the origin, by the column alone. Each has a way of its own, so that no test asks for the column again.
fn state_of(c: u8, re: i16, im: i16) -> u8
    requires { c ≤ 4 }
    ensures { result ≡ get_or (ring_of c) (ring_index c re im) 0 }
{
    if c <= 1 {
        packed_at(PACKED1, ring_index(1, re, im))
    } else if c == 2 {
        packed_at(PACKED2, ring_index(2, re, im))
    } else if c == 3 {
        packed_at(PACKED3, ring_index(3, re, im))
    } else {
        packed_at(PACKED4, ring_index(4, re, im))
    }
}

// The same of a mode. For a caller that names the mode as a constant: all that depends on it is then a constant too.
pub fn state_in(mode: u8, re: i16, im: i16) -> u8
    ensures { result ≡ get_or (ring_of mode) (ring_index mode re im) 0 }
{
    state_of(line::column_of(mode), re, im)
}

// How far apart two coordinates are.
fn apart(x: i16, y: i16) -> u32
    ensures { (result ≡ apartSpec x y) × (result ≤ 65536) }
{
    let d = (x as i32) - (y as i32);
    if 0 <= d { d as u32 } else { (0 - d) as u32 }
}

// The squared distance of two points. Of a sent point and any other it is below 2^32 (the law `distance_small`), so that nothing
// is cut off.
pub fn squared_distance(p: Point, re: i16, im: i16) -> SquaredUnits
    ensures { result.0 ≡ squared_distance (at re im) p % 4294967296 }
{
    let x = apart(re, p.re) as u64;
    let y = apart(im, p.im) as u64;
    SquaredUnits(((x * x + y * y) % 4294967296) as u32)
}

// The squared distance from a point to the sent point of a state.
fn distance(mode: u8, s: u8, re: i16, im: i16) -> SquaredUnits
    ensures { result.0 ≡ distanceSpec mode s (at re im) }
{
    squared_distance(line::sent_point(mode, s), re, im)
}

// The state of a point and its distance, for every pair of coordinates.
pub fn decide(mode: u8, re: i16, im: i16) -> Option<Decided>
    ensures value { result ≡ decision mode (at re im) }
    ensures told { Told mode (at re im) result }
{
    if is_origin(re, im) {
        return None;
    }
    let state = state_of(line::column_of(mode), re, im);
    Some(Decided {
        state,
        distance: distance(mode, state, re, im),
    })
}
