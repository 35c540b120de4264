// Prints a line for each V.41 block in the bits that stand on standard input as characters: the blocks' size and how many bits to pass over are
// its arguments.
#![tactic(auto)]

use console::Stop;
use line::{Refusal, need};
use std::io::{Print, Read};
use std::rt::Env;

// How far the input has been checked: bits left over at the front of the buffer, bits still to pass over, and the place of the first bit left
// over.
#[derive(Clone, Copy)]
struct Checking {
    have: usize,
    skip: u64,
    place: u64,
}

// One read, and the lines of the blocks of the bits in what came; whether the input has ended. A character that is no bit is refused.
fn check_some<R: Read>(
    rt: &impl Print,
    c: &mut Checking,
    size: usize,
    input: &mut R,
    bits: &mut [u8],
) -> Result<bool, Stop> {
    let mut text = [0u8; 4096];
    let came = bit_input::read_bits(input, &mut text, bits, c.have)?;
    let m = came.count;
    let passed = m.min(c.skip as usize);
    let place = c.place.wrapping_add(passed as u64);
    let mut out = [0u8; 4096];
    // It is the size that is refused, before any bit.
    let lines = verdicts::check_blocks(size, place, &bits[passed..m], &mut out)?;
    console::emit_first(rt, &out, lines.written)?;
    let taken = lines.taken.min(m - passed);
    c.have = console::carry(bits, passed + taken, m);
    c.skip = c.skip.wrapping_sub(passed as u64);
    c.place = place.wrapping_add(taken as u64);
    let after = c.place.wrapping_add(c.have as u64);
    need(!came.other, Refusal::Bit).map_err(|refusal| Stop::Refused { refusal, after })?;
    Ok(came.ended)
}

// The lines of all blocks of the input, and a line for bits at its end that are no whole block.
fn check_blocks<R: Read>(rt: &(impl Print + Env), input: &mut R) -> Result<(), Stop> {
    let mut bits = [0u8; 8192];
    let size = console::number_argument(rt, 1) as usize;
    let mut c = Checking {
        have: 0,
        skip: console::number_argument(rt, 2),
        place: 0,
    };
    console::until_ended(|| check_some(rt, &mut c, size, input, &mut bits))?;
    if c.have != 0 {
        let (place, left) = (c.place, c.have);
        println!(rt; "{place} short {left}").map_err(Stop::Write)?;
    }
    Ok(())
}

// Where a call was refused, its line is the last one.
fn with_refusal(rt: &impl Print, done: Result<(), Stop>) -> Result<(), Stop> {
    if let Err(Stop::Refused { refusal, .. }) = &done {
        println!(rt; "refused {refusal}").map_err(Stop::Write)?;
    }
    done
}

fn main(rt: HostRuntime) {
    let done = check_blocks(&rt, &mut rt.stdin());
    console::tell(&rt, with_refusal(&rt, done));
}
