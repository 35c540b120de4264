// Prints the last line of a store's listing alone: document 02, R-2.
#![tactic(auto)]

use console::Stop;
use std::io::{Print, Read};

// Writes the last line of a store's listing. A store has at most 65,536 bytes. One byte more is kept, so that a longer input is refused for its
// size.
fn sum_store<R: Read>(rt: &impl Print, input: &mut R) -> Result<(), Stop> {
    let mut bytes = [0u8; 65537];
    let n = console::read_kept(input, &mut bytes)?;
    let mut line = [0u8; 64];
    let count = listing::sum_text(&bytes[..n], &mut line)?;
    console::emit_first(rt, &line, count)?;
    store::inspect(&bytes[..n])?;
    Ok(())
}

fn main(rt: HostRuntime) {
    console::tell(&rt, sum_store(&rt, &mut rt.stdin()));
}
