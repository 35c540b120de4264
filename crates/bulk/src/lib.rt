// Many points by one call: the state is looked at once, then the coordinates, then each point is read.
#![tactic(auto)]

ghost use Rattle.std.specs.Prelude.{◌≡◌, map, ◌+◌, ◌*◌, ◌/◌, ◌^◌, ◌<◌, ◌≤◌, true, length};
ghost use Rattle.line.specs.Mode.{width, guarded, capacity};
ghost use Rattle.line.specs.Point.{at, pairs};
ghost use Rattle.line.specs.Refusal.{numbered};
ghost use Rattle.scrambler.specs.Register.{register};
ghost use Rattle.scrambler.specs.Group.{descrambled};
ghost use Rattle.coding.specs.Rows.{Rows};
ghost use Rattle.receiver.specs.Receiver.{receiver, point, lost, refusal, answer, forgotten, next};
ghost use Rattle.receiver.specs.Calls.{after, EachAccepted};
ghost use Rattle.bulk.specs.Hearing.{step, state_step, settled_point, plain_at, held_next, Hearing, Holds, later_at, Ready};
ghost use Rattle.bulk.specs.Block.{in_units, answers_to, parts, wrote, sizes, coordinate_fault, fault_of, Told, block, parts_after};

use deciding::SquaredUnits;
use line::Refusal;
use receiver::{Intervals, Receiver};
use scrambler::{BitCount, Descrambled, Register};

// The two bytes of a point, its distance, and the state after it.
#[derive(Clone, Copy)]
pub struct Step {
    pub line: u8,
    pub plain: u8,
    pub distance: SquaredUnits,
    pub next: Receiver,
}

// A point decided as the state y at the distance u.
#[tactic(auto, using(crate::proofs::BlockLaws::plain_fits, crate::proofs::BlockLaws::take_reference))]
fn take(rows: &[u8; 16], s: Receiver, y: u8, u: SquaredUnits) -> Step
    requires { Rows s.mode rows.now × (s.place.0 < 4294967295) }
    ensures { result ≡ state_step s s.reference y u }
{
    let next = Receiver {
        reference: Some(y),
        place: Intervals(s.place.0 + 1),
        ..s
    };
    match s.reference {
        None => Step {
            line: 16,
            plain: 0,
            distance: u,
            next,
        },
        Some(x) => {
            let h = s.line;
            let line = coding::group_by(s.mode, rows, x, y);
            let d = scrambler::descramble_group(s.mode, s.role, h.bits, h.held.0, h.count.0, line);
            let plain = 16 * d.unsettled.0 + d.plain;
            Step {
                line,
                plain,
                distance: u,
                next: Receiver {
                    line: d.next,
                    ..next
                },
            }
        }
    }
}

// The origin: a gap of one interval.
#[tactic(auto, using(crate::proofs::BlockLaws::lose_law))]
fn lose(s: Receiver) -> Step
    requires { s.place.0 < 4294967295 }
    ensures { result ≡ step (lost 1) (forgotten s 1) }
{
    Step {
        line: 17,
        plain: 0,
        distance: SquaredUnits(0),
        next: Receiver {
            reference: None,
            line: scrambler::fresh_register(),
            place: Intervals(s.place.0 + 1),
            ..s
        },
    }
}

// A point that nothing refuses, after any state. Few points come here: so the ring is found for each.
fn hear(rows: &[u8; 16], s: Receiver, re: i16, im: i16) -> Step
    requires { Rows s.mode rows.now × (refusal s (point (at re im)) ≡ 0) }
    ensures { result ≡ step (answer s (point (at re im))) (next s (point (at re im))) }
{
    if deciding::is_origin(re, im) {
        return lose(s);
    }
    let ring = deciding::ring_of(s.mode);
    let state = deciding::state_at(s.mode, &ring, re, im);
    let sent = line::sent_point(s.mode, state);
    take(rows, s, state, deciding::squared_distance(sent, re, im))
}

// ---- points after a reference

// A point after a reference and a full register: its state, its line bits and data bits, all settled, and what the register is after it.
#[derive(Clone, Copy)]
struct Settled {
    state: u8,
    line: u8,
    plain: u8,
    bits: u32,
    count: u8,
}

// The data bits of w line bits after a full register. `receiver::descramble` has the same choice in it: a public function there, with its
// contract, would be no plainer than these lines.
#[tactic(auto, using(scrambler::proofs::GroupLaws::counted_law, scrambler::proofs::GroupLaws::next_law))]
fn full_bits(mode: u8, role: u8, bits: u32, count: u8, line: u8) -> Descrambled
    ensures { result ≡ descrambled mode role (register bits (capacity mode) count) line }
{
    if line::has_guard(mode) {
        return scrambler::descramble_counted(mode, role, bits, count, line);
    }
    scrambler::descramble_next(mode, role, bits, line)
}

// A point after the reference x and a full register, in the mode M.
#[tactic(auto, using(crate::proofs::BlockLaws::settled_whole))]
fn settled_in<const M: u8>(
    rows: &[u8; 16],
    role: u8,
    x: u8,
    bits: u32,
    count: u8,
    re: i16,
    im: i16,
) -> Settled
    ensures { result ≡ settled_point M role x bits count rows.now re im }
{
    let y = deciding::state_in(M, re, im);
    let line = coding::group_by(M, rows, x, y);
    let d = full_bits(M, role, bits, count, line);
    Settled {
        state: y,
        line,
        plain: d.plain,
        bits: d.next.bits,
        count: d.next.count.0,
    }
}

// The same with a way of its own for each mode: there all that depends on it is a constant, and the loop below asks for the mode once
// a point. The tests are no equalities, of which the compiler would make a jump through a table.
fn settled_point(
    mode: u8,
    rows: &[u8; 16],
    role: u8,
    x: u8,
    bits: u32,
    count: u8,
    re: i16,
    im: i16,
) -> Settled
    requires { (1 ≤ mode) × (mode ≤ 6) }
    ensures { result ≡ settled_point mode role x bits count rows.now re im }
{
    if mode <= 1 {
        settled_in::<1>(rows, role, x, bits, count, re, im)
    } else if mode <= 2 {
        settled_in::<2>(rows, role, x, bits, count, re, im)
    } else if mode <= 3 {
        settled_in::<3>(rows, role, x, bits, count, re, im)
    } else if mode <= 4 {
        settled_in::<4>(rows, role, x, bits, count, re, im)
    } else if mode <= 5 {
        settled_in::<5>(rows, role, x, bits, count, re, im)
    } else {
        settled_in::<6>(rows, role, x, bits, count, re, im)
    }
}

// The byte of data bits that are all settled after a full register, where so many line bits are held.
fn plain_byte(mode: u8, held: u8, plain: u8) -> u8
    ensures { result ≡ plain_at mode held plain }
{
    if held == line::capacity_of(mode) {
        return plain;
    }
    16 * scrambler::unsettled_of(mode, held) + scrambler::settled_of(mode, held, plain)
}

// The line bits held after a point.
fn held_next(mode: u8, held: u8) -> u8
    ensures { result ≡ held_next mode held }
{
    if held == line::capacity_of(mode) {
        return held;
    }
    scrambler::held_after(mode, held)
}

// A point of a block, and the state before it.
#[derive(Clone, Copy)]
struct Run {
    at: usize,
    state: Receiver,
}

// The receiver i intervals after s, with the reference x.
fn later(s: Receiver, x: u8, bits: u32, held: u8, count: u8, i: usize) -> Receiver
    requires { s.place.0 + i ≤ 4294967295 }
    ensures { result ≡ later_at s x bits held count i }
{
    Receiver {
        reference: Some(x),
        line: Register {
            bits,
            held: BitCount(held),
            count: BitCount(count),
        },
        place: Intervals(s.place.0 + i as u32),
        ..s
    }
}

// Points that nothing refuses, from point `from` up to an origin or the end, after a reference and, with the guard, a full register. Where
// there is no guard a point is read as after a full register in any case: how many line bits are held changes none of the bits, only which
// data bits are settled. Nearly all points come through this loop; all that it calls is put in line. The reference and the register go round
// it as numbers, since a struct of them is put together and taken apart for each point. The three lent parts stay three slices here and
// below: a struct of `&mut` slices would need its three ghost names kept by each contract.
fn hear_run(
    rows: &[u8; 16],
    s: Receiver,
    reference: u8,
    points: &[i16],
    line: &mut [u8],
    plain: &mut [u8],
    distance: &mut [u32],
    from: usize,
) -> Run
    requires ready { Ready s rows.now (parts line.old plain.old distance.old) points.now from }
    requires full { guarded s.mode ≡ true → s.line.held.0 ≡ capacity s.mode }
    requires begun { s ≡ later_at s reference s.line.bits s.line.held.0 s.line.count.0 0 }
    ensures { Hearing s (parts line.old plain.old distance.old) points.now from result.state (parts line.new plain.new distance.new) result.at }
{
    let n = points.len() / 2;
    let mut x = reference;
    let mut bits = s.line.bits;
    let mut held = s.line.held.0;
    let mut count = s.line.count.0;
    let constellation = line::constellation(s.mode);
    for k in from..n {
        let re = points[2 * k];
        let im = points[2 * k + 1];
        if deciding::is_origin(re, im) {
            return Run {
                at: k,
                state: later(s, x, bits, held, count, k - from),
            };
        }
        let h = settled_point(s.mode, rows, s.role, x, bits, count, re, im);
        let state = (h.state % 16) as usize;
        let sent = constellation[state];
        let u = deciding::squared_distance(sent, re, im);
        distance[k] = u.0;
        line[k] = h.line;
        plain[k] = plain_byte(s.mode, held, h.plain);
        held = held_next(s.mode, held);
        bits = h.bits;
        count = h.count;
        x = h.state;
    }
    Run {
        at: n,
        state: later(s, x, bits, held, count, n - from),
    }
}

// The same after any state: without a reference, and with the guard before the register is full, no point.
fn hear_on(
    rows: &[u8; 16],
    s: Receiver,
    points: &[i16],
    line: &mut [u8],
    plain: &mut [u8],
    distance: &mut [u32],
    from: usize,
) -> Run
    requires { Ready s rows.now (parts line.old plain.old distance.old) points.now from }
    ensures { Hearing s (parts line.old plain.old distance.old) points.now from result.state (parts line.new plain.new distance.new) result.at }
{
    match s.reference {
        None => Run { at: from, state: s },
        Some(x) => {
            if (s.line.held.0 == line::capacity_of(s.mode)) | !line::has_guard(s.mode) {
                return hear_run(rows, s, x, points, line, plain, distance, from);
            }
            Run { at: from, state: s }
        }
    }
}

// One point more, if there is one.
fn hear_next(
    rows: &[u8; 16],
    s: Receiver,
    points: &[i16],
    line: &mut [u8],
    plain: &mut [u8],
    distance: &mut [u32],
    from: usize,
) -> Run
    requires { Ready s rows.now (parts line.old plain.old distance.old) points.now from }
    ensures { Hearing s (parts line.old plain.old distance.old) points.now from result.state (parts line.new plain.new distance.new) result.at
        × (from < length points.now / 2 → from < result.at) }
{
    if points.len() / 2 <= from {
        return Run { at: from, state: s };
    }
    let h = hear(rows, s, points[2 * from], points[2 * from + 1]);
    line[from] = h.line;
    plain[from] = h.plain;
    distance[from] = h.distance.0;
    Run {
        at: from + 1,
        state: h.next,
    }
}

// Points that nothing refuses: those after a reference, then the one at which they end, and so on.
#[tactic(auto, using(crate::proofs::BlockLaws::hearing_start, crate::proofs::BlockLaws::hearing_ready, crate::proofs::BlockLaws::hearing_then))]
fn hear_all(
    s: Receiver,
    points: &[i16],
    line: &mut [u8],
    plain: &mut [u8],
    distance: &mut [u32],
) -> Receiver
    requires { EachAccepted s (map point (pairs points.now)) × Holds points.now (parts line.old plain.old distance.old) }
    ensures { (result ≡ after s (map point (pairs points.now)))
        × (parts line.new plain.new distance.new ≡ wrote (parts line.old plain.old distance.old) 0 (answers_to s (pairs points.now))) }
{
    let n = points.len() / 2;
    let rows = coding::rows_of(s.mode);
    let mut t = s;
    let mut k = 0;
    // No `for`: a turn moves k on by as many points as it takes.
    while k < n {
        let run = hear_on(&rows, t, points, line, plain, distance, k);
        let one = hear_next(&rows, run.state, points, line, plain, distance, run.at);
        t = one.state;
        k = one.at;
    }
    t
}

// What refuses a block with so much lent for line bits, data bits and distances.
#[tactic(auto, unfolding(crate::specs::Block::fault_of, crate::specs::Block::coordinate_fault, crate::specs::Block::places_ok))]
fn block_fault(
    s: Receiver,
    points: &[i16],
    line: usize,
    plain: usize,
    distance: usize,
) -> Result<(), Refusal>
    ensures { numbered result ≡ fault_of s (length points.now) (coordinate_fault (in_units points.now)) (record { line = line; plain = plain; distance = distance }) }
{
    receiver::state_fault(s)?;
    let n = points.len() / 2;
    let lent = (points.len() % 2 == 0) & (n <= line) & (n <= plain) & (n <= distance);
    line::need(lent, Refusal::Lent)?;
    line::need(line::all_in_range(points), Refusal::Coordinate)?;
    line::need(n <= (u32::MAX - s.place.0) as usize, Refusal::Intervals)
}

// A state field by field: the caller writes it so, and read in larger pieces it would have to wait for what was written.
fn by_fields(s: Receiver) -> Receiver
    ensures { result ≡ s }
{
    let reference = s.reference;
    Receiver {
        mode: s.mode,
        role: s.role,
        reference,
        line: Register {
            bits: s.line.bits,
            held: BitCount(s.line.held.0),
            count: BitCount(s.line.count.0),
        },
        place: Intervals(s.place.0),
    }
}

// Takes points in units, re and im in turn, all or none, and writes the two bytes and the squared distance of each.
pub fn receive_points(
    s: Receiver,
    points: &[i16],
    line: &mut [u8],
    plain: &mut [u8],
    distance: &mut [u32],
) -> Result<Receiver, Refusal>
    ensures value { (result ≡ block s (in_units points.now) (sizes (parts line.old plain.old distance.old)))
        × (parts line.new plain.new distance.new ≡ parts_after s (in_units points.now) (parts line.old plain.old distance.old)) }
    ensures told { Told s (in_units points.now) (sizes (parts line.old plain.old distance.old)) result }
{
    let t = by_fields(s);
    block_fault(t, points, line.len(), plain.len(), distance.len())?;
    Ok(hear_all(t, points, line, plain, distance))
}
