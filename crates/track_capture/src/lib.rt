// A capture into a track store and back: the work of the commands `store` and `points`.
#![tactic(auto)]

ghost use Rattle.std.specs.Prelude.{◌≡◌, ◌+◌, ◌*◌, ◌≤◌, ◌<◌, length, drop};
ghost use Rattle.std.proofs.lemmas.List.Edits.{sets};
ghost use Rattle.store.specs.Layout.{points, events_of};
ghost use Rattle.store.specs.Store.{events};
ghost use Rattle.capture.specs.Capture.{captured, first, events_in};
ghost use Rattle.track_capture.specs.Appending.{Appends, Steps, Runs, Goes};
ghost use Rattle.track_capture.specs.Capturing.{Wrote, Gives};
ghost use Rattle.track_capture.specs.Keeping.{Keeps};

use capture::{Event, LOST_MARK, next_event};
use line::{Refusal, need};
use octets::{get8, get16, get32, put16, put32};
use store::{Track, inspect, open};
use track::{append_lost, append_point, append_points};

// ---- a capture into a store

// Appends the event that begins at byte `at`: how many bytes it takes, 0 where there is none.
fn append_next(store: &mut [u8], input: &[u8], at: usize) -> Result<usize, Refusal>
    ensures { Steps store.old (first (drop at input.now)) store.new result }
{
    let Some(event) = next_event(input, at) else {
        return Ok(0);
    };
    match event {
        Event::Point(re, im) => {
            append_point(store, re, im)?;
            Ok(4)
        }
        Event::Lost(n) => {
            append_lost(store, n)?;
            Ok(8)
        }
    }
}

// Points that stand one after the other in a capture, re and im in turn, and how many there are. An array and a count, since
// fixed memory holds them: the library has no heap.
#[derive(Clone, Copy)]
struct Run {
    numbers: [i16; 128],
    count: usize,
}

// The points from byte `at` on, up to 64.
fn run_at(input: &[u8], at: usize) -> Run
    requires { at ≤ length input.now }
    ensures { Runs input.now at result }
{
    let mut numbers = [0i16; 128];
    for k in 0..64 {
        let Some(event) = next_event(input, at + 4 * k) else {
            return Run { numbers, count: k };
        };
        let Event::Point(re, im) = event else {
            return Run { numbers, count: k };
        };
        numbers[2 * k] = re;
        numbers[2 * k + 1] = im;
    }
    Run { numbers, count: 64 }
}

// Appends the points from byte `at` on, up to 64, if there are two or more and the store takes them all; how many it took. So
// the store's chain is walked once for all of them.
fn append_run(store: &mut [u8], input: &[u8], at: usize) -> usize
    requires { at ≤ length input.now }
    ensures { Goes store.old store.new input.now at (at + 4 * result) result × (result ≤ 64) }
{
    let run = run_at(input, at);
    let n = run.count;
    if n < 2 {
        return 0;
    }
    if append_points(store, &run.numbers[..2 * n]).is_ok() {
        return n;
    }
    0
}

// How many events were taken, their bytes, and what refused the next one, if anything did.
#[derive(Clone, Copy)]
pub struct Appended {
    pub taken: usize,
    pub used: usize,
    pub refused: Option<Refusal>,
}

// Appends the events of a capture one after the other, up to the first one that is refused.
pub fn append_events(store: &mut [u8], input: &[u8]) -> Appended
    ensures { Appends store.old (events_in input.now) store.new result }
{
    let mut at = 0;
    let mut taken = 0;
    // No `for`: no index is counted, and each event says where the next one begins.
    loop {
        let n = append_run(store, input, at);
        at += 4 * n;
        taken += n;
        let step = append_next(store, input, at);
        let size = step.unwrap_or(0);
        if size == 0 {
            return Appended {
                taken,
                used: at,
                refused: step.err(),
            };
        }
        at += size;
        taken += 1;
    }
}

// ---- a store's capture

// Bytes enough for the capture of any store.
pub const LONGEST: usize = 57316;

// The first n points of a record.
fn put_points(r: &[u8], n: usize, out: &mut [u8], at: usize)
    requires { (n < 256) × (at ≤ 4000000) }
    ensures { out.new ≡ sets out.old at (captured (points (drop 4 r.now) n)) }
{
    for k in 0..n {
        let from = 4 + 4 * k;
        let to = at + 4 * k;
        put16(out, to, get16(r, from));
        put16(out, to + 2, get16(r, from + 2));
    }
}

// The events of a record; the place behind them.
fn put_record(r: &[u8], out: &mut [u8], at: usize) -> usize
    requires { at ≤ 4000000 }
    ensures { Wrote out.old at (captured (events_of r.now)) out.new result × (result ≤ at + 1024) }
{
    if get8(r, 2) == 1 {
        let n = get8(r, 3);
        put_points(r, n, out, at);
        return at + 4 * n;
    }
    put32(out, at, LOST_MARK);
    put32(out, at + 4, get32(r, 4));
    at + 8
}

// The events of an accepted store; the place behind them.
fn put_chain(track: Track, out: &mut [u8]) -> usize
    ensures { Wrote out.old 0 (captured (events track.entry.bytes.now)) out.new result }
{
    let mut at = 0;
    for record in track.records() {
        at = put_record(record, out, at);
    }
    at
}

// Writes the capture of a store's events at the start of the lent bytes; how long it is.
pub fn put_events(store: &[u8], out: &mut [u8]) -> Result<usize, Refusal>
    ensures { Gives store.now out.old out.new result }
{
    need(LONGEST <= out.len(), Refusal::Lent)?;
    let track = open(store)?;
    Ok(put_chain(track, out))
}

// ---- the bytes of a store that hold its chain

// How many of a store's first bytes hold its chain, and are a store by themselves.
pub fn kept_bytes(store: &[u8]) -> Result<usize, Refusal>
    ensures { Keeps store.now result }
{
    let v = inspect(store)?;
    Ok((32 * (v.greatest + 1)).max(64))
}
