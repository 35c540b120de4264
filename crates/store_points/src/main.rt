// Makes a track store of the points and lost intervals that stand on standard input, as a capture: mode, role, and how many events to pass over
// are its arguments.
#![tactic(auto)]

use console::Stop;
use line::Refusal;
use std::io::{Print, Read};
use std::rt::Env;

// How far the input has been taken: bytes left over at the front of the buffer, events still to pass over, and events before the next one.
#[derive(Clone, Copy)]
struct Taking {
    have: usize,
    skip: u64,
    events: u64,
}

// One read, and the events in what came, up to the first that the store refuses; whether the input has ended. Bytes left over at its end are
// refused, too.
fn take_some<R: Read>(
    t: &mut Taking,
    input: &mut R,
    buf: &mut [u8],
    store: &mut [u8],
) -> Result<bool, Stop> {
    let came = console::read_more(input, buf, t.have)?;
    let n = came.count;
    let passed = capture::skip_events(&buf[..n], t.skip);
    let from = passed.used.min(n);
    let appended = track_capture::append_events(store, &buf[from..n]);
    let used = appended.used.min(n - from);
    t.have = console::carry(buf, from + used, n);
    t.skip = t.skip.wrapping_sub(passed.skipped);
    let after = t
        .events
        .wrapping_add(passed.skipped)
        .wrapping_add(appended.taken as u64);
    t.events = after;
    let left = (came.ended && t.have != 0).then_some(Refusal::Lent);
    match appended.refused.or(left) {
        Some(refusal) => Err(Stop::Refused { refusal, after }),
        None => Ok(came.ended),
    }
}

// The records that hold the chain.
fn put_store(rt: &impl Print, store: &[u8]) -> Result<(), Stop> {
    let n = track_capture::kept_bytes(store)?;
    console::emit_first(rt, store, n)
}

// A store that is full, or whose total is the greatest, is written with what it holds; where an event itself is refused, nothing is.
fn store_points<R: Read>(rt: &(impl Print + Env), input: &mut R) -> Result<(), Stop> {
    let mut store = [0u8; 65536];
    track::make(
        &mut store,
        console::small_argument(rt, 1),
        console::small_argument(rt, 2),
    )?;
    let mut buf = [0u8; 65536];
    let mut t = Taking {
        have: 0,
        skip: console::number_argument(rt, 3),
        events: 0,
    };
    let taken = console::until_ended(|| take_some(&mut t, input, &mut buf, &mut store));
    if let Ok(_)
    | Err(
        Stop::Refused {
            refusal: Refusal::Intervals | Refusal::StoreFull,
            ..
        },
    ) = &taken
    {
        put_store(rt, &store)?;
    }
    taken?;
    Ok(())
}

fn main(rt: HostRuntime) {
    console::tell(&rt, store_points(&rt, &mut rt.stdin()));
}
