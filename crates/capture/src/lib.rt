// Captures: points and lost intervals in files, as bytes.
#![tactic(auto)]

ghost use Rattle.std.specs.Prelude.{◌≡◌, drop};
ghost use Rattle.std.proofs.lemmas.List.Edits.{sets};
ghost use Rattle.capture.specs.Capture.{number_bytes, first, size, event_of, told};
ghost use Rattle.capture.specs.Skip.{skipped_of};

use octets::{get_i16, get32, pattern_of, put16};

// The pair (-32768, -32768), as the number in its four bytes.
pub const LOST_MARK: usize = 0x8000_8000;

// An event of a capture: a point, or a count of lost intervals.
#[derive(Clone, Copy)]
pub enum Event {
    Point(i16, i16),
    Lost(u32),
}

impl Event {
    // How many bytes it has.
    pub fn size(self) -> usize
        ensures { result ≡ size (event_of self) }
    {
        match self {
            Event::Point(..) => 4,
            Event::Lost(_) => 8,
        }
    }
}

// The event that begins at byte `at`; none where the bytes end before it does. In line, and by a test of its own in place of
// `saturating_sub`, so that the compiler sees which bytes are there, and that who skips an event needs no more than its size.
#[inline(always)]
pub fn next_event(input: &[u8], at: usize) -> Option<Event>
    ensures { told result ≡ first (drop at input.now) }
{
    if input.len() <= at {
        return None;
    }
    let left = input.len() - at;
    if left < 4 {
        return None;
    }
    if get32(input, at) != LOST_MARK {
        return Some(Event::Point(get_i16(input, at), get_i16(input, at + 2)));
    }
    if left < 8 {
        return None;
    }
    Some(Event::Lost(get32(input, at + 4) as u32))
}

// How many events were skipped, and how many bytes they have.
#[derive(Clone, Copy)]
pub struct Skipped {
    pub skipped: u64,
    pub used: usize,
}

// Skips the first n events, or all where there are fewer.
pub fn skip_events(input: &[u8], n: u64) -> Skipped
    ensures { result ≡ skipped_of n input.now }
{
    let mut used = 0;
    for skipped in 0..n {
        let Some(event) = next_event(input, used) else {
            return Skipped { skipped, used };
        };
        used += event.size();
    }
    Skipped { skipped: n, used }
}

// The numbers as bytes at the front of `out`; what does not fit is not written.
pub fn put_numbers(numbers: &[i16], out: &mut [u8])
    ensures { out.new ≡ sets out.old 0 (number_bytes numbers.now) }
{
    let mut at = 0;
    for number in numbers {
        if out.len() <= at {
            return;
        }
        put16(out, at, pattern_of(*number));
        at += 2;
    }
}
