// The events of a capture, received and listed block by block.
ghost use Rattle.std.specs.Prelude.{◌≡◌, None, [], ◌∷◌, ◌+◌, ◌≤◌, length};
ghost use Rattle.std.proofs.lemmas.List.Edits.{sets};
ghost use Rattle.line.specs.Mode.{width};
ghost use Rattle.line.specs.Refusal.{numbered, or_next};
ghost use Rattle.receiver.specs.Outcome.{answer_of, state_of};
ghost use Rattle.summing.specs.Sums.{Small};
ghost use Rattle.capture.specs.Capture.{event_of};
ghost use Rattle.listing.specs.Stream.{first_refused, sums_ok, block_refusal, number_in, block_events, listed_events, listed_bytes};
ghost use Rattle.listing.specs.Onward.{more_lines, onward, further, answer_text, answered};

use super::{put_group, put_lost, put_reference};
use capture::{Event, next_event};
use line::{Refusal, need};
use receiver::{Outcome, Receiver, receive_gap, receive_point};
use summing::EventSums;

// The most bytes in a block.
pub const LONGEST_BLOCK: usize = 65536;

// What the events of a block, and of those before it, give: the receiver after them and their sums. Of the block alone: how many bytes of
// text they have, how many bytes of the block, and what refuses the call or the event behind them.
#[derive(Clone, Copy)]
pub struct ListedEvents {
    pub state: Receiver,
    pub sums: EventSums,
    pub count: usize,
    pub used: usize,
    pub refusal: Option<Refusal>,
}

// Whether sums are of what a receiver took up to a place.
fn sums_ok(v: EventSums, place: u32) -> bool
    ensures { result ≡ sums_ok v place }
{
    (v.points.saturating_add(v.lost) <= u64::from(place)) & (v.gaps <= v.lost)
}

// What refuses a call with n bytes of a capture and so many lent ones.
#[tactic(auto, unfolding(crate::specs::Stream::block_refusal))]
fn block_fault(s: Receiver, v: EventSums, n: usize, room: usize) -> Result<(), Refusal>
    ensures { numbered result ≡ block_refusal s v n room }
{
    receiver::state_fault(s)?;
    need(sums_ok(v, s.place.0), Refusal::State)?;
    need(n <= LONGEST_BLOCK, Refusal::Lent)?;
    need(7 * n <= room, Refusal::Lent)
}

// One event further: the state after it, the text's end, its bytes in the block, and its sums. They are added here and in
// `summing::added`: a public function for both could ask for no room, and would be no plainer.
fn further(
    h: ListedEvents,
    state: Receiver,
    count: usize,
    bytes: usize,
    e: EventSums,
) -> ListedEvents
    requires { (h.used ≤ 65536) × (bytes ≤ 8) × Small h.sums × Small e }
    ensures { result ≡ further h state count bytes e }
{
    ListedEvents {
        state,
        sums: EventSums {
            points: h.sums.points + e.points,
            lost: h.sums.lost + e.lost,
            gaps: h.sums.gaps + e.gaps,
        },
        count,
        used: h.used + bytes,
        refusal: None,
    }
}

// What a receiver gave for an event: its line is written, or what refuses it kept.
fn list_outcome(
    out: &mut [u8],
    h: ListedEvents,
    o: Result<Outcome, Refusal>,
    bytes: usize,
) -> ListedEvents
    requires { (h.count ≤ 500000) × (h.used ≤ 65536) × (bytes ≤ 8) × Small h.sums }
    ensures { (result ≡ answered h (answer_of (width h.state.mode) o) (state_of h.state o) bytes) × (out.new ≡ sets out.old h.count (answer_text h.state.place.0 (answer_of (width h.state.mode) o))) }
{
    let s = h.state;
    let at = h.count;
    let place = s.place.0;
    let point = EventSums {
        points: 1,
        lost: 0,
        gaps: 0,
    };
    match o {
        Err(refusal) => ListedEvents {
            refusal: Some(refusal),
            ..h
        },
        Ok(Outcome::Referenced(_, t)) => {
            let end = put_reference(out, at, place);
            further(h, t, end, bytes, point)
        }
        Ok(Outcome::Bits(g, _, t)) => {
            let w = line::width_of(s.mode);
            let end = put_group(out, at, place, w, g.line, g.plain, g.unsettled.0);
            further(h, t, end, bytes, point)
        }
        Ok(Outcome::Gap(n, t)) => {
            let end = put_lost(out, at, place, n.0);
            let gap = EventSums {
                points: 0,
                lost: n.0 as u64,
                gaps: 1,
            };
            further(h, t, end, bytes, gap)
        }
    }
}

// An event of a capture.
fn list_event(out: &mut [u8], h: ListedEvents, e: Event) -> ListedEvents
    requires { (h.count ≤ 500000) × (h.used ≤ 65536) × (h.refusal ≡ None) × Small h.sums }
    ensures { (result ≡ onward h (event_of e ∷ [])) × (out.new ≡ sets out.old h.count (more_lines h (event_of e ∷ []))) }
{
    let s = h.state;
    match e {
        Event::Point(re, im) => {
            let o = receive_point(s, re, im);
            list_outcome(out, h, o, 4)
        }
        Event::Lost(n) => {
            let o = receive_gap(s, n);
            list_outcome(out, h, o, 8)
        }
    }
}

// Takes the events of a block of a capture, up to the first that the receiver refuses, and writes their lines at the start of the lent bytes.
pub fn list_events(s: Receiver, v: EventSums, input: &[u8], out: &mut [u8]) -> ListedEvents
    ensures listed { (result ≡ listed_events s v input.now (length out.old)) × (out.new ≡ listed_bytes s v input.now out.old) }
    ensures number { number_in result.refusal ≡ or_next (block_refusal s v (length input.now) (length out.old)) (first_refused s (block_events s v input.now (length out.old))) }
{
    let fault = block_fault(s, v, input.len(), out.len());
    let mut h = ListedEvents {
        state: s,
        sums: v,
        count: 0,
        used: 0,
        refusal: fault.err(),
    };
    while h.refusal.is_none() {
        let Some(event) = next_event(input, h.used) else {
            return h;
        };
        h = list_event(out, h, event);
    }
    h
}
