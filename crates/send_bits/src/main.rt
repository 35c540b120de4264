// Prints the points of a training and of the data bits that stand on standard input as characters: mode, role and training length are its
// arguments.
#![tactic(auto)]

use console::Stop;
use line::{Refusal, need};
use sender::Sender;
use std::io::{Print, Read};
use std::rt::Env;

// How far the input has been sent: the sender, bits left over at the front of the buffer, and how many were sent.
#[derive(Clone, Copy)]
struct Sending {
    state: Sender,
    have: usize,
    bits: u64,
}

// One read, and the points of the whole groups of bits in what came; whether the input has ended. A character that is no bit is refused,
// and so are bits left over at the end.
fn send_some<R: Read>(
    rt: &impl Print,
    t: &mut Sending,
    input: &mut R,
    bits: &mut [u8],
    out: &mut [u8],
) -> Result<bool, Stop> {
    let mut text = [0u8; 4096];
    let came = bit_input::read_bits(input, &mut text, bits, t.have)?;
    let after = t.bits.wrapping_add(came.count as u64);
    let refused = |refusal| Stop::Refused { refusal, after };
    let played = playback::send_bytes(t.state, &bits[..came.count], out).map_err(refused)?;
    t.state = played.next;
    console::emit_first(rt, out, played.count)?;
    let sent = playback::whole_bits(t.state.mode, came.count);
    t.have = console::carry(bits, sent, came.count);
    t.bits = t.bits.wrapping_add(sent as u64);
    need(!came.other, Refusal::Bit).map_err(refused)?;
    need(!came.ended || t.have == 0, Refusal::BitCount).map_err(refused)?;
    Ok(came.ended)
}

// The input's points behind the training's. The training has at most 8,464 points, and 4,096 characters with three bits before them give at
// most 2,049.
fn send_bits<R: Read>(rt: &(impl Print + Env), input: &mut R) -> Result<(), Stop> {
    let mut bits = [0u8; 8192];
    let mut out = [0u8; 33856];
    let mode = console::small_argument(rt, 1);
    let role = console::small_argument(rt, 2);
    let training = playback::open_bytes(mode, role, console::wide_argument(rt, 3), &mut out)?;
    console::emit_first(rt, &out, training.count)?;
    let mut t = Sending {
        state: training.next,
        have: 0,
        bits: 0,
    };
    console::until_ended(|| send_some(rt, &mut t, input, &mut bits, &mut out))?;
    Ok(())
}

fn main(rt: HostRuntime) {
    console::tell(&rt, send_bits(&rt, &mut rt.stdin()));
}
