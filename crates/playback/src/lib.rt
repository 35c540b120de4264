// The points of a sender as the bytes of a capture.
#![tactic(auto)]

ghost use Rattle.std.specs.Prelude.{◌≡◌, ◌*◌, ◌/◌, ◌≤◌, length as size};
ghost use Rattle.line.specs.Mode.{width};
ghost use Rattle.line.specs.Refusal.{numbered};
ghost use Rattle.playback.specs.Playback.{room_refusal, played, played_bytes, open_fault, open_played, open_bytes, send_fault, send_played, send_bytes};

use line::Refusal;
use sender::Sender;

// The next state and the count of bytes written.
#[derive(Clone, Copy)]
pub struct Played {
    pub next: Sender,
    pub count: usize,
}

// The numbers as bytes at the front of `out`, if they fit.
fn hand_over(next: Sender, numbers: &[i16], out: &mut [u8]) -> Result<Played, Refusal>
    ensures value { result ≡ played (room_refusal (size numbers.now) (size out.old)) next numbers.now }
    ensures out_after { out.new ≡ played_bytes (room_refusal (size numbers.now) (size out.old)) numbers.now out.old }
{
    let n = numbers.len();
    if out.len() / 2 < n {
        return Err(Refusal::Lent);
    }
    capture::put_numbers(numbers, out);
    Ok(Played { next, count: 2 * n })
}

// Opens a sender: its training stands at the front of `out`. The longest training has 8,464 points.
pub fn open_bytes(mode: u8, role: u8, length: u32, out: &mut [u8]) -> Result<Played, Refusal>
    ensures value { result ≡ open_played mode role length (size out.old) }
    ensures number { numbered result ≡ open_fault mode role length (size out.old) }
    ensures out_after { out.new ≡ open_bytes mode role length out.old }
{
    let mut numbers = [0i16; 16928];
    let next = sender::open(mode, role, length, &mut numbers, 0)?;
    let e = 2 * training::interval_count(mode, length);
    hand_over(next, &numbers[..e], out)
}

// How many of n data bits are in whole groups of a mode: those that `send_bytes` sends.
pub fn whole_bits(mode: u8, n: usize) -> usize
    ensures { (result ≡ n / width mode * width mode) × (result ≤ n) }
{
    let w = line::width_of(mode) as usize;
    n / w * w
}

// Sends the whole groups at the front of `input`, one bit in a byte: their points stand at the front of `out`. The bits behind the last
// whole group are the caller's to put in front of the next ones. What this and `open_bytes` share is `hand_over`: the calls, what they
// refuse and the lengths of the numbers differ. The count of groups is used by itself, so `whole_bits` is not called.
pub fn send_bytes(s: Sender, input: &[u8], out: &mut [u8]) -> Result<Played, Refusal>
    ensures value { result ≡ send_played s input.now (size out.old) }
    ensures number { numbered result ≡ send_fault s input.now (size out.old) }
    ensures out_after { out.new ≡ send_bytes s input.now out.old }
{
    let w = line::width_of(s.mode) as usize;
    let groups = input.len() / w;
    let m = groups * w;
    let mut numbers = [0i16; 8192];
    let next = sender::send(s, &input[..m], &mut numbers, 0)?;
    if 8192 < input.len() {
        return Err(Refusal::Lent);
    }
    let e = 2 * groups;
    hand_over(next, &numbers[..e], out)
}
