// Prints the lines of a listing for the points and lost intervals that stand on standard input, as a capture: mode and role are its arguments.
#![tactic(auto)]

use console::Stop;
use line::Refusal;
use receiver::Receiver;
use std::io::{Print, Read};
use std::rt::Env;
use summing::EventSums;

// How far the input has been heard: the receiver and its sums, and bytes left over at the front of the buffer.
#[derive(Clone, Copy)]
struct Hearing {
    state: Receiver,
    sums: EventSums,
    have: usize,
}

// One read, and the lines of the events in what came, up to the first that is refused; whether the input has ended. Bytes left over at its end
// are refused, too.
fn hear_some<R: Read>(
    rt: &impl Print,
    h: &mut Hearing,
    input: &mut R,
    buf: &mut [u8],
    out: &mut [u8],
) -> Result<bool, Stop> {
    let came = console::read_more(input, buf, h.have)?;
    let listed = listing::list_events(h.state, h.sums, &buf[..came.count], out);
    console::emit_first(rt, out, listed.count)?;
    h.state = listed.state;
    h.sums = listed.sums;
    h.have = console::carry(buf, listed.used, came.count);
    let after = h.sums.points.wrapping_add(h.sums.gaps);
    let left = (came.ended && h.have != 0).then_some(Refusal::Lent);
    match listed.refusal.or(left) {
        Some(refusal) => Err(Stop::Refused { refusal, after }),
        None => Ok(came.ended),
    }
}

// The lines of all of the input's events, and the sums.
fn receive<R: Read>(rt: &(impl Print + Env), input: &mut R) -> Result<(), Stop> {
    let state = receiver::fresh(
        console::small_argument(rt, 1),
        console::small_argument(rt, 2),
    )?;
    let sums = EventSums {
        points: 0,
        lost: 0,
        gaps: 0,
    };
    let mut h = Hearing {
        state,
        sums,
        have: 0,
    };
    let mut buf = [0u8; 65536];
    let mut out = [0u8; 458752];
    console::until_ended(|| hear_some(rt, &mut h, input, &mut buf, &mut out))?;
    let count = listing::sum_line(h.sums, &mut out)?;
    console::emit_first(rt, &out, count)
}

// Where a call was refused, its line is the last one.
fn with_refusal(rt: &impl Print, done: Result<(), Stop>) -> Result<(), Stop> {
    if let Err(Stop::Refused { refusal, .. }) = &done {
        let mut out = [0u8; 64];
        let count = listing::refused_line(refusal.number(), &mut out)?;
        console::emit_first(rt, &out, count)?;
    }
    done
}

fn main(rt: HostRuntime) {
    let done = receive(&rt, &mut rt.stdin());
    console::tell(&rt, with_refusal(&rt, done));
}
