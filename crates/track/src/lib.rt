// The track store: making it, and appending points and lost intervals. Document 01, "Track store".
#![tactic(auto)]

ghost use Rattle.std.specs.Prelude.{◌≡◌, true, [], ◌∷◌, ◌+◌, ◌*◌, ◌%◌, ◌≤◌, ◌<◌, length};
ghost use Rattle.line.specs.Point.{at, coordinates_in};
ghost use Rattle.line.specs.Refusal.{numbered};
ghost use Rattle.octets.specs.Number.{le16};
ghost use Rattle.store.specs.Layout.{rec, write, link_in, held, lost_record, point_bytes, point_record};
ghost use Rattle.store.specs.Walk.{Viewed};
ghost use Rattle.track.specs.Append.{made, make_number, make_result, lost_number, lost_result, has_room, point_number, point_result};
ghost use Rattle.track.specs.Calls.{after, EachAccepted};
ghost use Rattle.track.specs.Points.{spaces, point_events, points_number, points_result};
ghost use Rattle.track.specs.Placing.{Ends, Reach, placed, next_end};

use line::{Refusal, all_in_range, mode_fault, need};
use octets::{clear, get8, put_all, put8, put16, put32};
pub use store::read;
use store::{MARK, TOTAL_AT, View, inspect, link_in, size_ok};

const MOST_INTERVALS: usize = 4294967295;

// ---- making

// The bytes of an empty store.
fn put_head(store: &mut [u8], mode: u8, role: u8)
    ensures { store.new ≡ made (length store.old) mode role }
{
    clear(store);
    put_all(store, 0, &MARK);
    put8(store, 4, mode);
    put8(store, 5, role);
}

// Makes an empty store.
pub fn make(store: &mut [u8], mode: u8, role: u8) -> Result<(), Refusal>
    ensures { (numbered result ≡ make_number store.old mode role) × (store.new ≡ make_result store.old mode role) }
{
    mode_fault(mode, role)?;
    need(size_ok(store), Refusal::StoreSize)?;
    put_head(store, mode, role);
    Ok(())
}

// ---- appending

// The bytes of a new record.
fn lost_record(n: usize) -> [u8; 32]
    ensures { result ≡ lost_record n }
{
    let mut r = [0u8; 32];
    r[2] = 2;
    put32(&mut r, 4, n);
    r
}

// The bytes of a point.
fn point_bytes(re: i16, im: i16) -> [u8; 4]
    ensures { result ≡ point_bytes (at re im) }
{
    let [a, b] = re.to_le_bytes();
    let [c, d] = im.to_le_bytes();
    [a, b, c, d]
}

fn point_record(re: i16, im: i16) -> [u8; 32]
    ensures { result ≡ point_record (at re im) }
{
    let mut bytes = [0u8; 32];
    bytes[2] = 1;
    bytes[3] = 1;
    bytes[4..8].copy_from_slice(&point_bytes(re, im));
    bytes
}

// The bytes `r` as record i. They come by value: so no byte of the store is one of them, and all are copied at once.
fn put_record(store: &mut [u8], i: usize, r: [u8; 32])
    requires { (32 * i + 32 ≤ length store.old) × (length r ≡ 32) }
    ensures { store.new ≡ write store.old i 0 r }
{
    let at = 32 * i;
    store[at..at + 32].copy_from_slice(&r);
}

// The new record `r` at index `new`, and its link in the chain's last record.
fn link(store: &mut [u8], last: usize, new: usize, r: [u8; 32])
    requires { (32 * last + 32 ≤ length store.old) × (32 * new + 32 ≤ length store.old) × (length r ≡ 32) }
    ensures { store.new ≡ write (write store.old new 0 r) last (link_in last) (le16 new) }
{
    put_record(store, new, r);
    put16(store, 32 * last + link_in(last), new);
}

// One point more in record i, which holds k.
fn grow(store: &mut [u8], i: usize, k: usize, re: i16, im: i16)
    requires { (32 * i + 32 ≤ length store.old) × (k < 7) }
    ensures { store.new ≡ write (write store.old i 3 ((k + 1) ∷ [])) i (4 + 4 * k) (point_bytes (at re im)) }
{
    let at = 32 * i + (4 + 4 * k);
    store[32 * i + 3] = (k + 1) as u8;
    store[at..at + 4].copy_from_slice(&point_bytes(re, im));
}

// How many points record i holds.
fn held_in(s: &[u8], i: usize) -> usize
    requires { i < 2048 }
    ensures { result ≡ held (rec s.now i) }
{
    get8(s, 32 * i + 3)
}

// Whether record i is a chain record of points with room for another.
fn has_room(s: &[u8], i: usize) -> bool
    requires { i < 2048 }
    ensures { result ≡ has_room s.now i }
{
    (i != 0) & (get8(s, 32 * i + 2) == 1) & (held_in(s, i) < 7)
}

// How many points the store that `v` shows still takes.
fn room_for(s: &[u8], v: View) -> usize
    requires { Viewed s.now v }
    ensures { result ≡ spaces s.now }
{
    let last = v.last;
    let fresh = 7 * (s.len() / 32 - (v.greatest + 1));
    if has_room(s, last) {
        return 7 - held_in(s, last) + fresh;
    }
    fresh
}

// A lost count of at least 1, at the end of the chain that `v` shows.
fn link_lost(store: &mut [u8], v: View, n: usize) -> Result<(), Refusal>
    requires { Viewed store.old v × (1 ≤ n) × (n ≤ 4294967295) }
    ensures { (numbered result ≡ lost_number store.old n) × (store.new ≡ lost_result store.old n) }
{
    let new = v.greatest + 1;
    let total = v.total + n;
    need(total <= MOST_INTERVALS, Refusal::Intervals)?;
    need(new != store.len() / 32, Refusal::StoreFull)?;
    link(store, v.last, new, lost_record(n));
    put32(store, TOTAL_AT, total);
    Ok(())
}

// Appends a lost count.
pub fn append_lost(store: &mut [u8], n: u32) -> Result<(), Refusal>
    ensures { (numbered result ≡ lost_number store.old n) × (store.new ≡ lost_result store.old n) }
{
    need(1 <= n, Refusal::NoIntervals)?;
    let v = inspect(store)?;
    link_lost(store, v, n as usize)
}

// The end of a chain: its last and its greatest index, and how many points the last record holds, 7 where it has no room for
// one.
#[derive(Clone, Copy)]
struct End {
    last: usize,
    greatest: usize,
    held: usize,
}

// The end of the chain that `v` shows.
fn end_of(s: &[u8], v: View) -> End
    requires { Viewed s.now v }
    ensures { Ends s.now v.total result }
{
    let last = v.last;
    let mut held = 7;
    if has_room(s, last) {
        held = held_in(s, last);
    }
    End {
        last,
        greatest: v.greatest,
        held,
    }
}

// A point at the end of the chain, without the total; the end after it.
fn place_point(store: &mut [u8], e: End, re: i16, im: i16) -> End
    requires { Reach (length store.old) e }
    ensures { (store.new ≡ placed store.old e (at re im)) × (result ≡ next_end e) }
{
    let last = e.last;
    let held = e.held;
    if held < 7 {
        grow(store, last, held, re, im);
        return End {
            last,
            greatest: e.greatest,
            held: held + 1,
        };
    }
    let new = e.greatest + 1;
    link(store, last, new, point_record(re, im));
    End {
        last: new,
        greatest: new,
        held: 1,
    }
}

// ---- points

// Appends points that nothing refuses to the store that `v` shows. The total is written once, after them.
fn place_points(store: &mut [u8], v: View, points: &[i16])
    requires { Viewed store.old v × EachAccepted store.old (point_events points.now) }
    ensures { store.new ≡ after store.old (point_events points.now) }
{
    if points.len() < 2 {
        return;
    }
    let mut e = end_of(store, v);
    let mut total = v.total;
    for point in points.chunks_exact(2) {
        e = place_point(store, e, point[0], point[1]);
        total += 1;
    }
    put32(store, TOTAL_AT, total);
}

// Points in range at the end of the chain that `v` shows, all or none.
fn place_all(store: &mut [u8], v: View, points: &[i16]) -> Result<(), Refusal>
    requires { Viewed store.old v × (length points.now % 2 ≡ 0) × (coordinates_in points.now ≡ true) }
    ensures { (numbered result ≡ points_number store.old points.now) × (store.new ≡ points_result store.old points.now) }
{
    let n = points.len() / 2;
    need(v.total + n <= MOST_INTERVALS, Refusal::Intervals)?;
    need(n <= room_for(store, v), Refusal::StoreFull)?;
    place_points(store, v, points);
    Ok(())
}

// Appends points, re and im in turn, all or none. The store is walked once, and the refusal, the lowest that applies, is decided before
// anything is written.
pub fn append_points(store: &mut [u8], points: &[i16]) -> Result<(), Refusal>
    ensures { (numbered result ≡ points_number store.old points.now) × (store.new ≡ points_result store.old points.now) }
{
    need(points.len() % 2 == 0, Refusal::Lent)?;
    need(all_in_range(points), Refusal::Coordinate)?;
    let v = inspect(store)?;
    place_all(store, v, points)
}

// Appends a point.
pub fn append_point(store: &mut [u8], re: i16, im: i16) -> Result<(), Refusal>
    ensures { (numbered result ≡ point_number store.old (at re im)) × (store.new ≡ point_result store.old (at re im)) }
{
    let points = [re, im];
    append_points(store, &points)
}
