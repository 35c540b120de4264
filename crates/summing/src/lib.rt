// The sums of a track store: decided points, lost intervals, gaps. Document 02, R-2.
#![tactic(auto)]

ghost use Rattle.std.specs.Prelude.{◌≡◌, ◌+◌, ◌≤◌, ◌<◌, drop};
ghost use Rattle.line.specs.Point.{at};
ghost use Rattle.octets.specs.Number.{i16};
ghost use Rattle.store.specs.Chain.{sum_over};
ghost use Rattle.store.specs.Layout.{point, points, events_of};
ghost use Rattle.store.specs.Store.{events};
ghost use Rattle.summing.specs.Sums.{gaps_in, sums_of, plus, Small, Tells};
ghost use Rattle.summing.specs.Room.{OfRecords};

use line::Refusal;
use octets::{get8, get32};
use store::Track;

// P, L and G of events: decided points, lost intervals, gaps.
#[derive(Clone, Copy, Default)]
pub struct EventSums {
    pub points: u64,
    pub lost: u64,
    pub gaps: u64,
}

// The point whose four bytes begin at `from`: 1 at the origin, where all of them are zero, else 0.
fn origin_at(r: &[u8], from: usize) -> u64
    ensures { (result ≡ gaps_in (point (at (i16 r.now from) (i16 r.now (from + 2))))) × (result ≤ 1) }
{
    if get32(r, from) == 0 {
        return 1;
    }
    0
}

// How many of a record's first n points are at the origin.
fn origins_in(r: &[u8], n: usize) -> u64
    requires { n < 256 }
    ensures { (result ≡ sum_over gaps_in (points (drop 4 r.now) n)) × (result ≤ n) }
{
    let mut origins = 0;
    for k in 0..n {
        origins += origin_at(r, 4 + 4 * k);
    }
    origins
}

// The sums of a record's events.
fn record_sums(r: &[u8]) -> EventSums
    ensures { (result ≡ sums_of (events_of r.now)) × OfRecords 1 result }
{
    if get8(r, 2) == 1 {
        let n = get8(r, 3);
        let origins = origins_in(r, n);
        let decided = n as u64 - origins;
        return EventSums {
            points: decided,
            lost: origins,
            gaps: origins,
        };
    }
    let n = get32(r, 4) as u64;
    EventSums {
        points: 0,
        lost: n,
        gaps: 1,
    }
}

fn added(a: EventSums, b: EventSums) -> EventSums
    requires { OfRecords 2048 a × OfRecords 1 b }
    ensures { result ≡ plus a b }
{
    EventSums {
        points: a.points + b.points,
        lost: a.lost + b.lost,
        gaps: a.gaps + b.gaps,
    }
}

// The sums of an accepted store's events.
pub fn chain_sums(track: Track) -> EventSums
    ensures { (result ≡ sums_of (events track.entry.bytes.now)) × Small result }
{
    let mut v = EventSums::default();
    for record in track.records() {
        v = added(v, record_sums(record));
    }
    v
}

// The sums of a store.
pub fn sums(store: &[u8]) -> Result<EventSums, Refusal>
    ensures { Tells store.now result }
{
    let track = store::open(store)?;
    Ok(chain_sums(track))
}
