// Prints the points and lost intervals of the track store that stands on standard input, as a capture.
#![tactic(auto)]

use console::Stop;
use std::io::{Print, Read};

// Writes the events of a store. A store has at most 65,536 bytes. One byte more is kept, so that a longer input is refused for its size.
fn put_points<R: Read>(rt: &impl Print, input: &mut R) -> Result<(), Stop> {
    let mut bytes = [0u8; 65537];
    let n = console::read_kept(input, &mut bytes)?;
    let mut out = [0u8; 57316];
    let count = track_capture::put_events(&bytes[..n], &mut out)?;
    console::emit_first(rt, &out, count)
}

fn main(rt: HostRuntime) {
    console::tell(&rt, put_points(&rt, &mut rt.stdin()));
}
