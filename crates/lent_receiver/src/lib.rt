// The receiver's calls over lent bytes, for callers in C and Rust. The layouts stand in specs/ and in include/kerambiu.h.
#![tactic(auto)]

ghost use Rattle.std.specs.Prelude.{◌≡◌, ◌+◌, ◌≤◌, ◌<◌, length as size};
ghost use Rattle.std.proofs.lemmas.List.Edits.{sets};
ghost use Rattle.line.specs.Point.{at};
ghost use Rattle.line.specs.Refusal.{number, numbered};
ghost use Rattle.octets.specs.Number.{u32 as word, le32};
ghost use Rattle.receiver.specs.Receiver.{point, gap};
ghost use Rattle.bulk.specs.Block.{in_units, in_levels, parts};
ghost use Rattle.lent_receiver.specs.Receiving.{reference_in, receiver_in, receiver_out, answer_bytes, fresh_number, fresh_state, call_number, call_state, call_answer, block_number, block_state, block_parts, state_number};
ghost use Rattle.lent_receiver.specs.Handing.{reference_out, refused_number, NoPoint, handed_number, handed_state, handed_answer};

use line::Refusal;
use receiver::{Intervals, Outcome, Receiver};
use scrambler::{BitCount, Register};

// ---- a state's bytes

// The number in four bytes that are there.
fn word_at(s: &[u8], at: usize) -> u32
    requires { at + 4 ≤ size s.now }
    ensures { result ≡ word s.now at }
{
    u32::from_le_bytes([s[at], s[at + 1], s[at + 2], s[at + 3]])
}

// A number into four bytes that are there.
fn put_word(b: &mut [u8], at: usize, n: u32)
    requires { at + 4 ≤ size b.old }
    ensures { b.new ≡ sets b.old at (le32 n) }
{
    b[at..at + 4].copy_from_slice(&n.to_le_bytes());
}

// A receiver's bytes are read and written in their places, without a test of the length at each and without an array of all between: so
// the compiler joins them to whole numbers.
fn load_reference(s: &[u8]) -> Option<u8>
    requires { 16 ≤ size s.now }
    ensures { result ≡ reference_in s.now }
{
    let kind = s[2];
    let state = s[3];
    let clear = (s[10] == 0) & (s[11] == 0);
    if clear & (kind == 1) {
        return Some(state);
    }
    if clear & ((kind == 0) & (state == 0)) {
        return None;
    }
    Some(255)
}

fn load_receiver(s: &[u8]) -> Receiver
    requires { 16 ≤ size s.now }
    ensures { result ≡ receiver_in s.now }
{
    let reference = load_reference(s);
    Receiver {
        mode: s[0],
        role: s[1],
        reference,
        line: Register {
            bits: word_at(s, 4),
            held: BitCount(s[8]),
            count: BitCount(s[9]),
        },
        place: Intervals(word_at(s, 12)),
    }
}

// Bytes 2 and 3.
fn reference_bytes(r: Option<u8>) -> [u8; 2]
    ensures { result ≡ reference_out r }
{
    match r {
        None => [0, 0],
        Some(x) => [1, x],
    }
}

fn put_receiver(b: &mut [u8], s: Receiver)
    requires { 16 ≤ size b.old }
    ensures { b.new ≡ sets b.old 0 (receiver_out s) }
{
    let [presence, state] = reference_bytes(s.reference);
    b[0] = s.mode;
    b[1] = s.role;
    b[2] = presence;
    b[3] = state;
    put_word(b, 4, s.line.bits);
    b[8] = s.line.held.0;
    b[9] = s.line.count.0;
    b[10] = 0;
    b[11] = 0;
    put_word(b, 12, s.place.0);
}

// ---- an answer's bytes

fn put_answer(b: &mut [u8], kind: u8, line: u8, plain: u8, unsettled: u8, n: u32, distance: u32)
    requires { 12 ≤ size b.old }
    ensures { b.new ≡ sets b.old 0 (answer_bytes kind line plain unsettled n distance) }
{
    b[0] = kind;
    b[1] = line;
    b[2] = plain;
    b[3] = unsettled;
    put_word(b, 4, n);
    put_word(b, 8, distance);
}

// What refuses a call that a refusal refuses: number 7 goes before a higher one.
fn refused(refusal: Refusal, answer: usize) -> Refusal
    ensures { number result ≡ refused_number answer (number refusal) }
{
    if (answer < 12) & (7 < refusal.number()) {
        return Refusal::Lent;
    }
    refusal
}

// Writes what the outcome of a point gives into the lent bytes, or gives what refuses the point. It has one caller, and so is put in
// line there. The length is asked for in each case: so the compiler need not tell the cases apart twice.
fn hand_back(
    state: &mut [u8],
    answer: &mut [u8],
    o: Result<Outcome, Refusal>,
) -> Result<(), Refusal>
    requires { 16 ≤ size state.old }
    ensures { (numbered result ≡ handed_number answer.old o) × (state.new ≡ handed_state state.old answer.old o) × (answer.new ≡ handed_answer answer.old o) }
{
    match o {
        Err(refusal) => Err(refused(refusal, answer.len())),
        Ok(Outcome::Referenced(d, t)) => {
            if answer.len() < 12 {
                return Err(Refusal::Lent);
            }
            put_receiver(state, t);
            put_answer(answer, 0, 0, 0, 0, 0, d.0);
            Ok(())
        }
        Ok(Outcome::Bits(g, d, t)) => {
            if answer.len() < 12 {
                return Err(Refusal::Lent);
            }
            put_receiver(state, t);
            put_answer(answer, 1, g.line, g.plain, g.unsettled.0, 0, d.0);
            Ok(())
        }
        Ok(Outcome::Gap(n, t)) => {
            if answer.len() < 12 {
                return Err(Refusal::Lent);
            }
            put_receiver(state, t);
            put_answer(answer, 2, 0, 0, 0, n.0, 0);
            Ok(())
        }
    }
}

// The same of a gap, whose outcome is no decided point.
fn hand_back_gap(
    state: &mut [u8],
    answer: &mut [u8],
    o: Result<Outcome, Refusal>,
) -> Result<(), Refusal>
    requires { (16 ≤ size state.old) × NoPoint o }
    ensures { (numbered result ≡ handed_number answer.old o) × (state.new ≡ handed_state state.old answer.old o) × (answer.new ≡ handed_answer answer.old o) }
{
    match o {
        Err(refusal) => Err(refused(refusal, answer.len())),
        Ok(Outcome::Gap(n, t)) => {
            if answer.len() < 12 {
                return Err(Refusal::Lent);
            }
            put_receiver(state, t);
            put_answer(answer, 2, 0, 0, 0, n.0, 0);
            Ok(())
        }
        Ok(_) => unreachable!(),
    }
}

// ---- the calls

// A receiver that has taken nothing.
pub fn fresh(state: &mut [u8], mode: u8, role: u8) -> Result<(), Refusal>
    ensures { (numbered result ≡ fresh_number state.old mode role) × (state.new ≡ fresh_state state.old mode role) }
{
    if state.len() < 16 {
        return line::or_next(line::mode_fault(mode, role), Err(Refusal::Lent));
    }
    let s = receiver::fresh(mode, role)?;
    put_receiver(state, s);
    Ok(())
}

// A point.
pub fn receive_point(state: &mut [u8], re: i16, im: i16, answer: &mut [u8]) -> Result<(), Refusal>
    ensures { (numbered result ≡ call_number state.old answer.old (point (at re im))) × (state.new ≡ call_state state.old answer.old (point (at re im))) × (answer.new ≡ call_answer state.old answer.old (point (at re im))) }
{
    if state.len() < 16 {
        return Err(Refusal::Lent);
    }
    let o = receiver::receive_point(load_receiver(state), re, im);
    hand_back(state, answer, o)
}

// Points in units, re and im in turn, all or none.
pub fn receive_points(
    state: &mut [u8],
    points: &[i16],
    line: &mut [u8],
    plain: &mut [u8],
    distance: &mut [u32],
) -> Result<(), Refusal>
    ensures { (numbered result ≡ block_number state.old (in_units points.now) (parts line.old plain.old distance.old))
        × (state.new ≡ block_state state.old (in_units points.now) (parts line.old plain.old distance.old))
        × (parts line.new plain.new distance.new ≡ block_parts state.old (in_units points.now) (parts line.old plain.old distance.old)) }
{
    if state.len() < 16 {
        return Err(Refusal::Lent);
    }
    let s = bulk::receive_points(load_receiver(state), points, line, plain, distance)?;
    put_receiver(state, s);
    Ok(())
}

// The same in levels.
pub fn receive_levels(
    state: &mut [u8],
    levels: &[f32],
    line: &mut [u8],
    plain: &mut [u8],
    distance: &mut [u32],
) -> Result<(), Refusal>
    ensures { (numbered result ≡ block_number state.old (in_levels levels.now) (parts line.old plain.old distance.old))
        × (state.new ≡ block_state state.old (in_levels levels.now) (parts line.old plain.old distance.old))
        × (parts line.new plain.new distance.new ≡ block_parts state.old (in_levels levels.now) (parts line.old plain.old distance.old)) }
{
    if state.len() < 16 {
        return Err(Refusal::Lent);
    }
    let s = readings::receive_levels(load_receiver(state), levels, line, plain, distance)?;
    put_receiver(state, s);
    Ok(())
}

// A gap of n intervals.
pub fn receive_gap(state: &mut [u8], n: u32, answer: &mut [u8]) -> Result<(), Refusal>
    ensures { (numbered result ≡ call_number state.old answer.old (gap n)) × (state.new ≡ call_state state.old answer.old (gap n)) × (answer.new ≡ call_answer state.old answer.old (gap n)) }
{
    if state.len() < 16 {
        return Err(Refusal::Lent);
    }
    let o = receiver::receive_gap(load_receiver(state), n);
    hand_back_gap(state, answer, o)
}

// What is wrong with a state's bytes.
pub fn state_fault(state: &[u8]) -> Result<(), Refusal>
    ensures { numbered result ≡ state_number state.now }
{
    if state.len() < 16 {
        return Err(Refusal::Lent);
    }
    receiver::state_fault(load_receiver(state))
}
