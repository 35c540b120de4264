// Modes, roles, states and points: document 01.
#![tactic(auto)]

ghost use Rattle.std.specs.Prelude.{◌≡◌, ◌≤◌, pos, nat_abs};
ghost use Rattle.line.specs.Table.{Tabled};
ghost use Rattle.line.specs.Mode.{column, is_mode, is_role, width, guarded, capacity, is_state};
ghost use Rattle.line.specs.Point.{at, coordinate_in, in_range, coordinates_in, sent_point};
ghost use Rattle.line.specs.Refusal.{numbered, mode_refusal};

pub use refusal::{Refusal, need, number_of, or_next};

pub mod numbers; // refusals as bare numbers
mod refusal; // why a call is refused

// A point: 1024 to one level.
#[derive(Clone, Copy)]
pub struct Point {
    pub re: i16,
    pub im: i16,
}

// A mode and a role are numbers here and in the states, and not enums: C hands in any byte, and `mode_fault` refuses those that are none.
pub fn mode_ok(mode: u8) -> bool
    ensures { result ≡ is_mode mode }
{
    (1 <= mode) & (mode <= 6)
}

// The column of a mode: 5 and 6 read those of 1 and 2. It is a number, and what takes it in `deciding`, `coding` and `scrambler` asks for at
// most 4: an enum of the four was tried there, and of its matches the compiler made jumps through tables and calls: a single point took 10 to
// 28 percent more instructions, a block of modes 5 and 6 twice as many (docs/DECISIONS.md, Speed).
pub fn column_of(mode: u8) -> u8
    ensures { result ≡ column mode }
{
    match mode {
        0..=4 => mode,
        5 => 1,
        _ => 2,
    }
}

// Whether a mode has the guard.
#[tactic(auto, unfolding(crate::specs::Mode::guarded))]
pub fn has_guard(mode: u8) -> bool
    ensures { result ≡ guarded mode }
{
    4 < mode
}

pub fn role_ok(mode: u8, role: u8) -> bool
    ensures { result ≡ is_role mode role }
{
    if column_of(mode) <= 2 {
        role < 1
    } else {
        role < 2
    }
}

// What is wrong with a mode and a role of it.
#[tactic(auto, unfolding(crate::specs::Refusal::mode_refusal))]
pub fn mode_fault(mode: u8, role: u8) -> Result<(), Refusal>
    ensures { numbered result ≡ mode_refusal mode role }
{
    need(mode_ok(mode), Refusal::Mode)?;
    need(role_ok(mode, role), Refusal::Role)
}

// The line bits in a point.
#[tactic(auto, using(crate::proofs::ByMode::mode_1, crate::proofs::ByMode::mode_2, crate::proofs::ByMode::mode_3, crate::proofs::ByMode::mode_4), unfolding(crate::specs::Mode::width))]
pub fn width_of(mode: u8) -> u8
    ensures { result ≡ width mode }
{
    match column_of(mode) {
        0..=1 => 2,
        2 => 3,
        3 => 2,
        _ => 4,
    }
}

// The line bits that a register keeps.
#[tactic(auto, using(crate::proofs::ByMode::kept_guarded, crate::proofs::ByMode::kept_short, crate::proofs::ByMode::kept_long))]
pub fn capacity_of(mode: u8) -> u8
    ensures { result ≡ capacity mode }
{
    if has_guard(mode) {
        return 12;
    }
    if column_of(mode) <= 2 { 7 } else { 23 }
}

#[tactic(auto, using(crate::proofs::StateLaws::states_2, crate::proofs::StateLaws::states_3))]
pub fn state_ok(mode: u8, s: u8) -> bool
    ensures { result ≡ is_state mode s }
{
    match column_of(mode) {
        0..=1 => (s < 8) & (s % 2 == 0),
        2 => s < 8,
        3 => (s < 16) & (s % 4 == 1),
        _ => s < 16,
    }
}

// The V.27 ter states' points, and those of 001's table 3.
const SENT27: [Point; 8] = [
    Point { re: 4096, im: 0 },
    Point { re: 2896, im: 2896 },
    Point { re: 0, im: 4096 },
    Point {
        re: -2896,
        im: 2896,
    },
    Point { re: -4096, im: 0 },
    Point {
        re: -2896,
        im: -2896,
    },
    Point { re: 0, im: -4096 },
    Point {
        re: 2896,
        im: -2896,
    },
];

const SENT32: [Point; 16] = [
    Point {
        re: -1024,
        im: -1024,
    },
    Point {
        re: -3072,
        im: -1024,
    },
    Point {
        re: -1024,
        im: -3072,
    },
    Point {
        re: -3072,
        im: -3072,
    },
    Point {
        re: 1024,
        im: -1024,
    },
    Point {
        re: 1024,
        im: -3072,
    },
    Point {
        re: 3072,
        im: -1024,
    },
    Point {
        re: 3072,
        im: -3072,
    },
    Point {
        re: -1024,
        im: 1024,
    },
    Point {
        re: -1024,
        im: 3072,
    },
    Point {
        re: -3072,
        im: 1024,
    },
    Point {
        re: -3072,
        im: 3072,
    },
    Point { re: 1024, im: 1024 },
    Point { re: 3072, im: 1024 },
    Point { re: 1024, im: 3072 },
    Point { re: 3072, im: 3072 },
];

// The point sent for a state.
pub fn sent_point(mode: u8, s: u8) -> Point
    ensures { result ≡ sent_point mode s }
{
    let i = usize::from(s);
    if column_of(mode) <= 2 {
        SENT27[i % 8]
    } else {
        SENT32[i % 16]
    }
}

// The size of a coordinate.
pub fn size(x: i16) -> u32
    ensures value { result ≡ nat_abs x }
    ensures upper_bound { result ≤ 32768 }
{
    u32::from(x.unsigned_abs())
}

// Whether a coordinate lies from -16384 to 16384. It is compared as it stands, not by its size: so many are compared at once.
pub fn coordinate_ok(x: i16) -> bool
    ensures { result ≡ coordinate_in x }
{
    (-16384 <= x) & (x <= 16384)
}

// Whether both coordinates of a point do.
pub fn in_range(re: i16, im: i16) -> bool
    ensures { result ≡ in_range (at re im) }
{
    coordinate_ok(re) & coordinate_ok(im)
}

// Whether each of many coordinates does. All are looked at, since nearly always all are in range.
// Other types have this loop again: a function for all would take its test as a closure, for which a public one needs a `requires`.
pub fn all_in_range(numbers: &[i16]) -> bool
    ensures { result ≡ coordinates_in numbers.now }
{
    let mut all = true;
    for x in numbers {
        all &= coordinate_ok(*x);
    }
    all
}

// The points of the states 0 to 15. A caller binds them once before a loop: a constant is built anew at each use.
pub fn constellation(mode: u8) -> [Point; 16]
    ensures { Tabled 16 (sent_point mode) (at (pos 0) (pos 0)) result }
{
    if column_of(mode) <= 2 {
        let [a, b, c, d, e, f, g, h] = SENT27;
        return [a, b, c, d, e, f, g, h, a, b, c, d, e, f, g, h];
    }
    SENT32
}
