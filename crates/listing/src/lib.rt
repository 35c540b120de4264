// The listing of a track store, as text into lent bytes. Document 01, "Listing program"; document 02, R-2.
#![tactic(auto)]

ghost use Rattle.std.specs.Prelude.{◌≡◌, true, cond, map, ◌++◌, ◌+◌, ◌*◌, ◌-◌, ◌/◌, ◌%◌, ◌^◌, ◌≤◌, ◌<◌, ltb, length, drop};
ghost use Rattle.line.specs.Refusal.{numbered};
ghost use Rattle.scrambler.specs.Bits.{bits};
ghost use Rattle.scrambler.specs.Group.{marked};
ghost use Rattle.receiver.specs.Receiver.{fresh_receiver, reference, decoded, lost};
ghost use Rattle.receiver.specs.Calls.{EachAccepted};
ghost use Rattle.store.specs.Layout.{points, record_ok, events_of};
ghost use Rattle.store.specs.Store.{events};
ghost use Rattle.summing.specs.Sums.{Small};
ghost use Rattle.listing.specs.Text.{decimal, glyphs, line_text, taken, lines, first_line, sum_line, refused_line, text, list_number, list_counts, list_result, counts_of};
ghost use Rattle.listing.specs.LastLine.{last_line, line_number, sum_number, Writes};
ghost use Rattle.listing.specs.Wrote.{Wrote, Went, byte_answer, byte_lines, numbers_in};

use line::{Refusal, need};
use octets::{get_i16, get8, get32, put_all, put8};
use receiver::{Intervals, Outcome, Receiver, receive_gap};
use store::{Track, open};
pub use stream::{ListedEvents, list_events};
pub use summing::sums;
use summing::{EventSums, chain_sums};

mod stream; // the events of a capture, block by block

// Bytes enough for a line that stands alone.
pub const LONGEST_LINE: usize = 64;

// The largest number of 32 bits.
const LARGEST: u64 = u32::MAX as u64;

// Bytes enough for the listing of any store.
pub const LONGEST: usize = 372645;

// ---- numbers and words

// Each of the functions that write takes the lent bytes and a place in them, and gives the place behind what it wrote. A struct of both
// would hold a `&mut`, and be no plainer: each contract would then have to say, too, that it still holds the same bytes.

// How many decimal digits a number has.
#[tactic(auto, using(crate::proofs::Digits::decimal_count))]
fn digit_count(n: u32) -> usize
    ensures { (result ≡ length (decimal n)) × (result ≤ 10) }
{
    n.max(1).ilog10() as usize + 1
}

// A number's digits, the last first; the place behind them.
fn put_decimal(out: &mut [u8], at: usize, n: u32) -> usize
    requires { at ≤ 1000000 }
    ensures { Wrote out.old at (decimal n) out.new result × (result ≤ at + 10) }
{
    let end = at + digit_count(n);
    let mut rest = n;
    for i in (at..end).rev() {
        put8(out, i, b'0' + (rest % 10) as u8);
        rest /= 10;
    }
    end
}

// Some words; the place behind them.
fn put_text(out: &mut [u8], at: usize, words: &[u8]) -> usize
    requires { at ≤ 1000000 }
    ensures { Wrote out.old at words.now out.new result }
{
    put_all(out, at, words);
    at + words.len()
}

// A number after its words; the place behind it.
fn put_number(out: &mut [u8], at: usize, words: &[u8], n: u32) -> usize
    requires { (at ≤ 950000) × (length words.now ≤ 20) }
    ensures { Wrote out.old at (words.now ++ decimal n) out.new result × (result ≤ at + length words.now + 10) }
{
    let digits = put_text(out, at, words);
    put_decimal(out, digits, n)
}

// ---- the line of an event

// The glyph of bit k out of the lowest w bits of a number, the highest being bit 0.
fn glyph_at(w: u8, v: u8, unsettled: u8, k: u8) -> u8
    requires { (k < w) × (w ≤ 4) }
    ensures { result ≡ cond (ltb k unsettled) 45 (48 + v / 2 ^ (w - 1 - k) % 2) }
{
    if k < unsettled {
        return b'-';
    }
    b'0' + (v >> (w - 1 - k) as u32) % 2
}

// The lowest w bits of a number, the highest first, the first `unsettled` of them as marks; the place behind them.
fn put_bits(out: &mut [u8], at: usize, w: u8, v: u8, unsettled: u8) -> usize
    requires { (at ≤ 1000000) × (w ≤ 4) }
    ensures { Wrote out.old at (glyphs (marked unsettled (bits w v))) out.new result × (result ≤ at + 4) }
{
    for k in 0..w {
        put8(out, at + k as usize, glyph_at(w, v, unsettled, k));
    }
    at + w as usize
}

// The line of a reference; the place behind it.
fn put_reference(out: &mut [u8], at: usize, place: u32) -> usize
    requires { at ≤ 900000 }
    ensures { Wrote out.old at (line_text place (reference 0)) out.new result × (result ≤ at + 30) }
{
    let kind = put_decimal(out, at, place);
    put_text(out, kind, b" ref\n")
}

// The line of w line bits and their data bits, of which the first `unsettled` are unsettled; the place behind it.
fn put_group(
    out: &mut [u8],
    at: usize,
    place: u32,
    w: u8,
    line: u8,
    plain: u8,
    unsettled: u8,
) -> usize
    requires { (at ≤ 900000) × (w ≤ 4) }
    ensures { Wrote out.old at (line_text place (decoded (bits w line) (marked unsettled (bits w plain)) 0)) out.new result × (result ≤ at + 30) }
{
    let kind = put_decimal(out, at, place);
    let first = put_text(out, kind, b" bits ");
    let space = put_bits(out, first, w, line, 0);
    let second = put_text(out, space, b" ");
    let end = put_bits(out, second, w, plain, unsettled);
    put_text(out, end, b"\n")
}

// The line of a loss of n intervals; the place behind it.
fn put_lost(out: &mut [u8], at: usize, place: u32, n: u32) -> usize
    requires { at ≤ 900000 }
    ensures { Wrote out.old at (line_text place (lost n)) out.new result × (result ≤ at + 30) }
{
    let kind = put_decimal(out, at, place);
    let end = put_number(out, kind, b" lost ", n);
    put_text(out, end, b"\n")
}

// The line of a point from its two bytes in a block, with w bits in a point; the place behind it.
#[tactic(auto, using(crate::proofs::Writes::put_as, crate::proofs::Writes::byte_reference, crate::proofs::Writes::byte_lost, crate::proofs::Writes::byte_bits))]
fn put_point(out: &mut [u8], at: usize, place: u32, w: u8, line: u8, plain: u8) -> usize
    requires { (at ≤ 900000) × (w ≤ 4) }
    ensures { Wrote out.old at (line_text place (byte_answer w line plain)) out.new result × (result ≤ at + 30) }
{
    if line == 16 {
        return put_reference(out, at, place);
    }
    if line == 17 {
        return put_lost(out, at, place, 1);
    }
    put_group(out, at, place, w, line, plain % 16, plain / 16)
}

// The lines of points, one interval apart; the place behind them.
fn put_lines(out: &mut [u8], at: usize, place: u32, w: u8, line: &[u8], plain: &[u8]) -> usize
    requires { (at ≤ 500000) × (w ≤ 4) × (length line.now ≤ 7) × (length plain.now ≡ length line.now) × (place + length line.now ≤ 4294967295) }
    ensures { Wrote out.old at (byte_lines w place line.now plain.now) out.new result }
{
    let mut p = at;
    for k in 0..line.len() {
        p = put_point(out, p, place + k as u32, w, line[k], plain[k]);
    }
    p
}

// ---- the lines of a chain

// A place in the text, and the receiver that hears the next event.
#[derive(Clone, Copy)]
struct Progress {
    at: usize,
    state: Receiver,
}

// The seven places of a record for points, as numbers, re and im in turn.
fn numbers_of(r: &[u8]) -> [i16; 14]
    ensures { result ≡ numbers_in (drop 4 r.now) 14 }
{
    let mut numbers = [0; 14];
    for k in 0..14 {
        numbers[k] = get_i16(r, 4 + 2 * k);
    }
    numbers
}

// The first n points of a record, taken at once. A refusal is ruled out: an accepted store holds no event that is refused.
fn put_points(r: &[u8], n: usize, out: &mut [u8], from: Progress) -> Progress
    requires { (1 ≤ n) × (n ≤ 7) × EachAccepted from.state (map taken (points (drop 4 r.now) n)) × (from.at ≤ 500000) }
    ensures { Went out.old from.at from.state (map taken (points (drop 4 r.now) n)) out.new result }
{
    let s = from.state;
    let numbers = numbers_of(r);
    let mut line = [0u8; 7];
    let mut plain = [0u8; 7];
    let mut distance = [0u32; 7];
    let m = 2 * n;
    let taken = bulk::receive_points(s, &numbers[..m], &mut line, &mut plain, &mut distance);
    let Ok(state) = taken else {
        return from;
    };
    let w = line::width_of(s.mode);
    let at = put_lines(out, from.at, s.place.0, w, &line[..n], &plain[..n]);
    Progress { at, state }
}

// The events of a record. A loss is answered as a gap: that it is refused is ruled out as well.
fn put_record(r: &[u8], out: &mut [u8], from: Progress) -> Progress
    requires { (record_ok r.now ≡ true) × EachAccepted from.state (map taken (events_of r.now)) × (from.at ≤ 500000) }
    ensures { Went out.old from.at from.state (map taken (events_of r.now)) out.new result }
{
    if get8(r, 2) == 1 {
        return put_points(r, get8(r, 3), out, from);
    }
    let s = from.state;
    let n = get32(r, 4) as u32;
    let o = receive_gap(s, n);
    let Ok(Outcome::Gap(_, state)) = o else {
        return from;
    };
    let at = put_lost(out, from.at, s.place.0, n);
    Progress { at, state }
}

// The events of an accepted store's chain; the place behind them.
fn put_chain(track: Track, out: &mut [u8], at: usize, state: Receiver) -> usize
    requires { EachAccepted state (map taken (events track.bytes.now)) × (at + length (lines state (map taken (events track.bytes.now))) ≤ 500000) }
    ensures { Wrote out.old at (lines state (map taken (events track.entry.bytes.now))) out.new result }
{
    let mut p = Progress { at, state };
    for record in track.records() {
        p = put_record(record, out, p);
    }
    p.at
}

// ---- the listing

// Mode, role and total; the place behind them.
fn put_first(out: &mut [u8], mode: u8, role: u8, total: u32) -> usize
    ensures { Wrote out.old 0 (first_line mode role total) out.new result }
{
    let at = put_number(out, 0, b"track mode ", u32::from(mode));
    let at = put_number(out, at, b" role ", u32::from(role));
    let at = put_number(out, at, b" total ", total);
    put_text(out, at, b"\n")
}

// The line of the sums; the place behind it.
fn put_sums(out: &mut [u8], at: usize, v: EventSums) -> usize
    requires { (at ≤ 500000) × Small v }
    ensures { Wrote out.old at (sum_line v) out.new result }
{
    let at = put_number(out, at, b"sum points ", v.points as u32);
    let at = put_number(out, at, b" lost ", v.lost as u32);
    let at = put_number(out, at, b" gaps ", v.gaps as u32);
    put_text(out, at, b"\n")
}

// A receiver that has taken nothing, of a mode and role that an accepted store has: what `receiver::fresh` refuses is ruled out.
fn fresh_state(mode: u8, role: u8) -> Receiver
    ensures { result ≡ fresh_receiver mode role }
{
    Receiver {
        mode,
        role,
        reference: None,
        line: scrambler::fresh_register(),
        place: Intervals(0),
    }
}

// The listing of an accepted store; its length.
fn put_track(track: Track, out: &mut [u8]) -> usize
    ensures { Wrote out.old 0 (text track.entry.bytes.now) out.new result }
{
    let mode = track.mode();
    let role = track.role();
    let at = put_first(out, mode, role, track.total());
    let end = put_chain(track, out, at, fresh_state(mode, role));
    put_sums(out, end, chain_sums(track))
}

// The one line of a refused store; its length.
fn put_refused(out: &mut [u8], number: u8) -> usize
    ensures { Wrote out.old 0 (refused_line number) out.new result }
{
    let end = put_number(out, 0, b"refused ", u32::from(number));
    put_text(out, end, b"\n")
}

// Lists a store of any length: its text stands at the start of the lent bytes; its length.
pub fn list(store: &[u8], out: &mut [u8]) -> Result<usize, Refusal>
    ensures { (numbered result ≡ list_number (length out.old)) × (counts_of result ≡ list_counts store.now (length out.old)) × (out.new ≡ list_result store.now out.old) }
{
    need(LONGEST <= out.len(), Refusal::Lent)?;
    match open(store) {
        Err(refusal) => Ok(put_refused(out, refusal.number())),
        Ok(track) => Ok(put_track(track, out)),
    }
}

// ---- lines that stand alone

// The last line of a store's listing.
pub fn sum_text(store: &[u8], out: &mut [u8]) -> Result<usize, Refusal>
    ensures { Writes (line_number (length out.old)) (last_line store.now) out.old out.new result }
{
    need(LONGEST_LINE <= out.len(), Refusal::Lent)?;
    match open(store) {
        Err(fault) => Ok(put_refused(out, fault.number())),
        Ok(track) => Ok(put_sums(out, 0, chain_sums(track))),
    }
}

// The line of some sums.
pub fn sum_line(v: EventSums, out: &mut [u8]) -> Result<usize, Refusal>
    ensures { Writes (sum_number v (length out.old)) (sum_line v) out.old out.new result }
{
    let small = (v.points <= LARGEST) & (v.lost <= LARGEST) & (v.gaps <= LARGEST);
    need(small, Refusal::State)?;
    need(LONGEST_LINE <= out.len(), Refusal::Lent)?;
    Ok(put_sums(out, 0, v))
}

// The line of a refusal, for each number: the commands have one of their own, too.
pub fn refused_line(n: u8, out: &mut [u8]) -> Result<usize, Refusal>
    ensures { Writes (line_number (length out.old)) (refused_line n) out.old out.new result }
{
    need(LONGEST_LINE <= out.len(), Refusal::Lent)?;
    Ok(put_refused(out, n))
}
