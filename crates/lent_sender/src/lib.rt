// The sender's calls over lent bytes and numbers, for callers in C and Rust. The layouts stand in specs/ and in include/kerambiu.h.
#![tactic(auto)]

ghost use Rattle.std.specs.Prelude.{◌≡◌, get_or};
ghost use Rattle.line.specs.Refusal.{numbered};
ghost use Rattle.lent_sender.specs.Sending.{sent_reference, sender_in, sender_out, open_number, open_state, open_out, send_number, send_state, send_out};
ghost use Rattle.lent_sender.specs.Putting.{sent_state};

use line::Refusal;
use octets::{get8, get32, put_all};
use scrambler::{BitCount, Register};
use sender::Sender;

// ---- a state's bytes

fn byte_at(s: &[u8], at: usize) -> u8
    ensures { result ≡ get_or s.now at 0 }
{
    get8(s, at) as u8
}

fn load_sent_reference(s: &[u8]) -> u8
    ensures { result ≡ sent_reference s.now }
{
    let clear = (byte_at(s, 10) == 0) & (byte_at(s, 11) == 0);
    if (byte_at(s, 3) == 0) & (clear & (get32(s, 12) == 0)) {
        return byte_at(s, 2);
    }
    255
}

fn load_sender(s: &[u8]) -> Sender
    ensures { result ≡ sender_in s.now }
{
    Sender {
        mode: byte_at(s, 0),
        role: byte_at(s, 1),
        reference: load_sent_reference(s),
        line: Register {
            bits: get32(s, 4) as u32,
            held: BitCount(byte_at(s, 8)),
            count: BitCount(byte_at(s, 9)),
        },
    }
}

fn sender_bytes(s: Sender) -> [u8; 16]
    ensures { result ≡ sender_out s }
{
    let [b4, b5, b6, b7] = s.line.bits.to_le_bytes();
    [
        s.mode,
        s.role,
        s.reference,
        0,
        b4,
        b5,
        b6,
        b7,
        s.line.held.0,
        s.line.count.0,
        0,
        0,
        0,
        0,
        0,
        0,
    ]
}

// Writes the state that a call hands back, unless the call is refused.
fn put_sent(state: &mut [u8], sent: Result<Sender, Refusal>) -> Result<(), Refusal>
    ensures { (numbered result ≡ numbered sent) × (state.new ≡ sent_state sent state.old) }
{
    let s = sent?;
    put_all(state, 0, &sender_bytes(s));
    Ok(())
}

// ---- the calls

// Opens a sender: its training stands in `out` from `offset` on.
pub fn open(
    state: &mut [u8],
    mode: u8,
    role: u8,
    length: u32,
    out: &mut [i16],
    offset: usize,
) -> Result<(), Refusal>
    ensures { (numbered result ≡ open_number state.old mode role length out.old offset) × (state.new ≡ open_state state.old mode role length out.old offset) × (out.new ≡ open_out state.old mode role length out.old offset) }
{
    if state.len() < 16 {
        let fault = sender::open_refusal(mode, role, length, out.len(), offset);
        return line::or_next(fault, Err(Refusal::Lent));
    }
    let sent = sender::open(mode, role, length, out, offset);
    put_sent(state, sent)
}

// Sends data bits, one in a byte: their points stand in `out` from `offset` on.
pub fn send(state: &mut [u8], input: &[u8], out: &mut [i16], offset: usize) -> Result<(), Refusal>
    ensures { (numbered result ≡ send_number state.old input.now out.old offset) × (state.new ≡ send_state state.old input.now out.old offset) × (out.new ≡ send_out state.old input.now out.old offset) }
{
    if state.len() < 16 {
        let fault = line::need(bits::are_bits(input), Refusal::Bit);
        return line::or_next(fault, Err(Refusal::Lent));
    }
    let sent = sender::send(load_sender(state), input, out, offset);
    put_sent(state, sent)
}
