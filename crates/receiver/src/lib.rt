// The receiver: its state, its answers, and the points and gaps that it takes. Document 01, "Receiver" and "Refusals"; the guard's count,
// which is the register's: document 02, R-6.
#![tactic(auto)]

ghost use Rattle.std.specs.Prelude.{◌≡◌};
ghost use Rattle.line.specs.Point.{at};
ghost use Rattle.line.specs.Refusal.{numbered};
ghost use Rattle.scrambler.specs.Group.{descrambled};
ghost use Rattle.receiver.specs.Receiver.{receiver, point, gap, fields_ok, state_refusal};
ghost use Rattle.receiver.specs.Outcome.{Told, state_outcome, gap_outcome, outcome, if_room, Made, started};

use deciding::SquaredUnits;
use line::Refusal;
use scrambler::{BitCount, Descrambled, Register};

// A count of unit intervals, never to be taken for one of bits.
#[derive(Clone, Copy)]
pub struct Intervals(pub u32);

// A receiver's state: `reference` is the state that the next point is read against, `line` holds the line bits since the last gap and
// the guard's count, `place` counts the unit intervals so far.
#[derive(Clone, Copy)]
pub struct Receiver {
    pub mode: u8,
    pub role: u8,
    pub reference: Option<u8>,
    pub line: Register,
    pub place: Intervals,
}

// A point's w line bits and data bits, each a number with the first in time highest. The first `unsettled` data bits are
// unsettled, and 0 in `plain`.
#[derive(Clone, Copy)]
pub struct Group {
    pub line: u8,
    pub plain: u8,
    pub unsettled: BitCount,
}

// What an accepted call gives. Each case hands back the next state, those of a decided point also the squared distance to its state's
// sent point.
#[derive(Clone, Copy)]
pub enum Outcome {
    Referenced(SquaredUnits, Receiver),
    Bits(Group, SquaredUnits, Receiver),
    Gap(Intervals, Receiver),
}

// A receiver that has taken nothing.
pub fn fresh(mode: u8, role: u8) -> Result<Receiver, Refusal>
    ensures value { result ≡ started mode role }
    ensures made { Made mode role result }
{
    line::mode_fault(mode, role)?;
    Ok(Receiver {
        mode,
        role,
        reference: None,
        line: scrambler::fresh_register(),
        place: Intervals(0),
    })
}

// What number 4 asks of a state.
#[tactic(auto, unfolding(crate::specs::Receiver::fields_ok, crate::specs::Receiver::is_fresh))]
fn fields_ok(mode: u8, reference: Option<u8>, h: Register) -> bool
    ensures { result ≡ fields_ok mode reference h }
{
    let bits = h.bits;
    let held = h.held.0;
    let count = h.count.0;
    match reference {
        None => (bits == 0) & (held == 0) & (count == 0),
        Some(x) => line::state_ok(mode, x) & scrambler::register_ok(mode, h),
    }
}

// What is wrong with a handed-in state.
#[tactic(auto, unfolding(crate::specs::Receiver::state_refusal))]
pub fn state_fault(s: Receiver) -> Result<(), Refusal>
    ensures { numbered result ≡ state_refusal s }
{
    line::mode_fault(s.mode, s.role)?;
    let reference = s.reference;
    let h = s.line;
    line::need(fields_ok(s.mode, reference, h), Refusal::State)
}

// A gap of n intervals: reference, line bits and count are forgotten.
#[tactic(auto, using(crate::proofs::OutcomeLaws::room_none, crate::proofs::OutcomeLaws::lost_law))]
fn lose(s: Receiver, n: u32) -> Result<Outcome, Refusal>
    ensures { result ≡ if_room s n (gap_outcome s n) }
{
    let Some(place) = s.place.0.checked_add(n) else {
        return Err(Refusal::Intervals);
    };
    let next = Receiver {
        reference: None,
        line: scrambler::fresh_register(),
        place: Intervals(place),
        ..s
    };
    Ok(Outcome::Gap(Intervals(n), next))
}

// A value field by field: one that a call hands back would take those that are put in line through memory, too.
fn by_fields(d: Descrambled) -> Descrambled
    ensures { result ≡ d }
{
    Descrambled {
        plain: d.plain,
        unsettled: BitCount(d.unsettled.0),
        next: Register {
            bits: d.next.bits,
            held: BitCount(d.next.held.0),
            count: BitCount(d.next.count.0),
        },
    }
}

// The data bits of w line bits. Nearly always the register is full, and no line bits are to be counted. Where there is no guard, how many
// line bits are held changes none of the bits, only which data bits are settled.
fn descramble(mode: u8, role: u8, h: Register, line: u8) -> Descrambled
    ensures { result ≡ descrambled mode role h line }
{
    let held = h.held.0;
    if line::has_guard(mode) {
        if held == line::capacity_of(mode) {
            return by_fields(scrambler::descramble_counted(mode, role, h.bits, h.count.0, line));
        }
        return by_fields(scrambler::descramble_group(mode, role, h.bits, held, h.count.0, line));
    }
    let d = scrambler::descramble_next(mode, role, h.bits, line);
    if held == line::capacity_of(mode) {
        return d;
    }
    Descrambled {
        plain: scrambler::settled_of(mode, held, d.plain),
        unsettled: BitCount(scrambler::unsettled_of(mode, held)),
        next: Register {
            bits: d.next.bits,
            held: BitCount(scrambler::held_after(mode, held)),
            count: BitCount(d.next.count.0),
        },
    }
}

// A point decided as the state y at the distance d: y becomes the reference.
#[tactic(auto, using(crate::proofs::OutcomeLaws::room_none, crate::proofs::OutcomeLaws::reference_law))]
fn take_state(s: Receiver, y: u8, d: SquaredUnits) -> Result<Outcome, Refusal>
    ensures { result ≡ if_room s 1 (state_outcome s s.reference y d) }
{
    let Some(place) = s.place.0.checked_add(1) else {
        return Err(Refusal::Intervals);
    };
    match s.reference {
        None => {
            let next = Receiver {
                reference: Some(y),
                place: Intervals(place),
                ..s
            };
            Ok(Outcome::Referenced(d, next))
        }
        Some(x) => {
            let line = coding::group_of(s.mode, x, y);
            let bits = descramble(s.mode, s.role, s.line, line);
            let next = Receiver {
                reference: Some(y),
                line: bits.next,
                place: Intervals(place),
                ..s
            };
            let group = Group {
                line,
                plain: bits.plain,
                unsettled: bits.unsettled,
            };
            Ok(Outcome::Bits(group, d, next))
        }
    }
}

// A point, for any state and any two coordinates.
pub fn receive_point(s: Receiver, re: i16, im: i16) -> Result<Outcome, Refusal>
    ensures value { result ≡ outcome s (point (at re im)) }
    ensures told { Told s (point (at re im)) result }
{
    state_fault(s)?;
    if line::in_range(re, im) {
        match deciding::decide(s.mode, re, im) {
            Some(decided) => take_state(s, decided.state, decided.distance),
            None => lose(s, 1),
        }
    } else {
        Err(Refusal::Coordinate)
    }
}

// A gap of n intervals, for any state and any n.
pub fn receive_gap(s: Receiver, n: u32) -> Result<Outcome, Refusal>
    ensures value { result ≡ outcome s (gap n) }
    ensures told { Told s (gap n) result }
{
    state_fault(s)?;
    if n < 1 {
        return Err(Refusal::NoIntervals);
    }
    lose(s, n)
}
