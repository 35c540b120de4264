// The records of a track store, their chain, and numbers 11 to 15. Document 01, "Track store".
#![tactic(auto)]

ghost use Rattle.std.specs.Prelude.{◌≡◌, true, false, [], ◌∷◌, ◌+◌, ◌*◌, ◌≤◌, ◌<◌, length, drop};
ghost use Rattle.std.proofs.lemmas.List.Edits.{sets};
ghost use Rattle.line.specs.Point.{in_range};
ghost use Rattle.line.specs.Refusal.{numbered};
ghost use Rattle.octets.specs.Number.{i16};
ghost use Rattle.store.specs.Layout.{rec, link_in, next, points, points_ok, record_ok, span_of, events_of};
ghost use Rattle.store.specs.Store.{events, refusal, size_ok, has_mark, head_ok};
ghost use Rattle.store.specs.Reads.{numbers, Gives, read_result};
ghost use Rattle.store.specs.Walk.{Sized, Passed, Walked, Tells, sized_number};

pub use chain::{ChainRecords, Track, open};
use line::{Refusal, coordinate_ok, mode_ok, need, role_ok};
use octets::{get_i16, get8, get16, get32, zero_from};

mod chain; // an accepted store, and its records

// Where record 0 holds the chain's first index and the total.
pub const FIRST_AT: usize = 6;

pub const TOTAL_AT: usize = 8;

// The mark that record 0 begins with.
pub const MARK: [u8; 4] = *b"VSYM";

// ---- records

// Whether a point at byte `at` lies in range.
fn point_ok(r: &[u8], at: usize) -> bool
    requires { at < 256 }
    ensures { result ≡ in_range (Rattle.line.specs.Point.at (i16 r.now at) (i16 r.now (at + 2))) }
{
    coordinate_ok(get_i16(r, at)) & coordinate_ok(get_i16(r, at + 2))
}

// Whether the bytes from 4 on are `n` points in range, and zeros after them. All 7 places are looked at, since zeros are a
// point in range: a loop of a fixed length compares them at once.
fn points_ok(r: &[u8], n: usize) -> bool
    requires { n ≤ 7 }
    ensures { result ≡ points_ok (drop 4 r.now) n }
{
    let mut fine = true;
    for k in 0..7 {
        fine &= point_ok(r, 4 + 4 * k);
    }
    fine & zero_from(r, 4 + 4 * n)
}

// Whether a chain record keeps to the layout. A kind stays the number of the layout here and below, 1 for points and 2 for a
// lost count: the definitions `is_points` and `record_ok` read that byte, and an enum for one test of it is no plainer.
fn record_ok(r: &[u8]) -> bool
    ensures { result ≡ record_ok r.now }
{
    let n = get8(r, 3);
    if get8(r, 2) == 1 {
        if n <= 7 {
            return (1 <= n) & points_ok(r, n);
        }
        return false;
    }
    (get8(r, 2) == 2) & (n == 0) & (1 <= get32(r, 4)) & zero_from(r, 8)
}

// A record's intervals.
fn span(r: &[u8]) -> usize
    ensures { (result ≡ span_of r.now) × (result < 4294967296) }
{
    if get8(r, 2) == 1 {
        return get8(r, 3);
    }
    get32(r, 4)
}

fn has_mark(r: &[u8]) -> bool
    requires { length r.now ≡ 32 }
    ensures { result ≡ has_mark r.now }
{
    let mark = MARK;
    (r[0] == mark[0]) & (r[1] == mark[1]) & (r[2] == mark[2]) & (r[3] == mark[3])
}

// Whether record 0 has the mark, a mode, a role of the mode, and zeros where they are due.
fn head_ok(r: &[u8]) -> bool
    requires { length r.now ≡ 32 }
    ensures { result ≡ head_ok r.now }
{
    has_mark(r) & mode_ok(r[4]) & role_ok(r[4], r[5]) & zero_from(r, 12)
}

// Record i.
fn record_at(s: &[u8], i: usize) -> &[u8]
    requires { 32 * i + 32 ≤ length s.now }
    ensures { (result.now ≡ rec s.now i) × (length result.now ≡ 32) }
{
    let at = 32 * i;
    let end = at + 32;
    &s[at..end]
}

// Where record i holds the next index.
pub fn link_in(i: usize) -> usize
    ensures { (result ≡ link_in i) × (result ≤ 6) }
{
    if i == 0 {
        return FIRST_AT;
    }
    0
}

fn next_of(s: &[u8], i: usize) -> usize
    requires { 32 * i + 32 ≤ length s.now }
    ensures { (result ≡ next s.now i) × (result < 65536) }
{
    get16(record_at(s, i), link_in(i))
}

// ---- the walk along the chain

// What a walk along the chain finds: whether it ends within the store, whether its records keep to the layout, their
// intervals, and the last and the greatest index.
#[derive(Clone, Copy)]
struct Trail {
    ends: bool,
    fine: bool,
    sum: usize,
    last: usize,
    greatest: usize,
}

// The walk over one record more.
fn passed(t: Trail, s: &[u8], i: usize) -> Trail
    requires { (32 * i + 32 ≤ length s.now) × (t.sum < 17592186044416) }
    ensures { Passed s.now i t result }
{
    let r = record_at(s, i);
    Trail {
        fine: t.fine & record_ok(r),
        sum: t.sum + span(r),
        last: i,
        greatest: t.greatest.max(i),
        ..t
    }
}

// The walk of the whole chain. It ends on every store: after as many steps as there are records an index has come twice.
// A `while`, since it goes from link to link: `k` counts steps, and is no index of anything.
fn follow(s: &[u8]) -> Trail
    requires { Sized s.now }
    ensures { Walked s.now result }
{
    let n = s.len() / 32;
    let mut t = Trail {
        ends: false,
        fine: true,
        sum: 0,
        last: 0,
        greatest: 0,
    };
    let mut i = next_of(s, 0);
    let mut k = 0;
    while i != 0 {
        if n <= i {
            return t;
        }
        if n <= k {
            return t;
        }
        t = passed(t, s, i);
        k += 1;
        i = next_of(s, i);
    }
    Trail { ends: true, ..t }
}

// What an append has to know of an accepted store: the chain's last and greatest index, and the total.
#[derive(Clone, Copy)]
pub struct View {
    pub last: usize,
    pub greatest: usize,
    pub total: usize,
}

pub fn size_ok(s: &[u8]) -> bool
    ensures { result ≡ size_ok s.now }
{
    (s.len() % 32 == 0) & (64 <= s.len()) & (s.len() <= 65536)
}

// What is wrong with a store of a right size: its head, and what the walk found.
fn sized_fault(head: bool, t: Trail, total: usize) -> Result<(), Refusal>
    ensures { numbered result ≡ sized_number head t total }
{
    need(head, Refusal::StoreHead)?;
    need(t.ends, Refusal::StoreIndex)?;
    need(t.fine, Refusal::StoreRecord)?;
    need(total == t.sum, Refusal::StoreTotal)
}

// A store of a right size.
fn inspect_sized(s: &[u8]) -> Result<View, Refusal>
    requires { size_ok s.now ≡ true }
    ensures { Tells s.now result }
{
    let t = follow(s);
    let total = get32(s, TOTAL_AT);
    let head = head_ok(record_at(s, 0));
    sized_fault(head, t, total)?;
    Ok(View {
        last: t.last,
        greatest: t.greatest,
        total,
    })
}

// The store's numbers, 11 to 15, in one walk.
pub fn inspect(s: &[u8]) -> Result<View, Refusal>
    ensures { Tells s.now result }
{
    need(size_ok(s), Refusal::StoreSize)?;
    inspect_sized(s)
}

// ---- reading

// How many events a record holds.
fn events_in(r: &[u8]) -> usize
    ensures { (result ≡ length (events_of r.now)) × (result < 256) }
{
    if get8(r, 2) == 1 {
        return get8(r, 3);
    }
    1
}

// How many events an accepted store holds.
fn count_events(track: Track) -> usize
    ensures { (result ≡ length (events track.entry.bytes.now)) × (result ≤ 524288) }
{
    let mut n = 0;
    for record in track.records() {
        n += events_in(record);
    }
    n
}

// One event: its kind, and a point's coordinates or a count and 0.
fn put_event(out: &mut [i64], at: usize, kind: i64, a: i64, b: i64)
    requires { at + 2 < length out.old }
    ensures { out.new ≡ sets out.old at (kind ∷ a ∷ b ∷ []) }
{
    out[at] = kind;
    out[at + 1] = a;
    out[at + 2] = b;
}

// A coordinate at byte `at` of a record.
fn coordinate(r: &[u8], at: usize) -> i64
    ensures { result ≡ i16 r.now at }
{
    get_i16(r, at) as i64
}

// The first n points of a record.
fn put_points(r: &[u8], n: usize, out: &mut [i64], at: usize)
    requires { (n < 256) × (at + 3 * n ≤ length out.old) }
    ensures { out.new ≡ sets out.old at (numbers (points (drop 4 r.now) n)) }
{
    for k in 0..n {
        let from = 4 + 4 * k;
        let re = coordinate(r, from);
        let im = coordinate(r, from + 2);
        put_event(out, at + 3 * k, 1, re, im);
    }
}

// The events of a record; the place after them.
fn put_events(r: &[u8], out: &mut [i64], at: usize) -> usize
    requires { at + 3 * length (events_of r.now) ≤ length out.old }
    ensures { (out.new ≡ sets out.old at (numbers (events_of r.now))) × (result ≡ at + 3 * length (events_of r.now)) }
{
    if get8(r, 2) == 1 {
        let n = get8(r, 3);
        put_points(r, n, out, at);
        return at + 3 * n;
    }
    put_event(out, at, 2, get32(r, 4) as i64, 0);
    at + 3
}

// The events of an accepted store's chain.
fn put_chain(track: Track, out: &mut [i64], offset: usize)
    requires { offset + 3 * length (events track.bytes.now) ≤ length out.old }
    ensures { out.new ≡ sets out.old offset (numbers (events track.entry.bytes.now)) }
{
    let mut at = offset;
    for record in track.records() {
        at = put_events(record, out, at);
    }
}

// Writes all events of an accepted store, if the lent numbers suffice; how many they are.
fn read_accepted(track: Track, out: &mut [i64], offset: usize) -> Result<usize, Refusal>
    requires { offset ≤ length out.old }
    ensures { Gives track.entry.bytes.now (length out.old) offset result × (out.new ≡ read_result track.entry.bytes.now out.old offset) }
{
    let count = count_events(track);
    need(3 * count <= out.len() - offset, Refusal::Lent)?;
    put_chain(track, out, offset);
    Ok(count)
}

// Reads all events, three numbers for each, into the lent numbers from the offset on; how many they are.
pub fn read(store: &[u8], out: &mut [i64], offset: usize) -> Result<usize, Refusal>
    ensures { Gives store.now (length out.old) offset result × (out.new ≡ read_result store.now out.old offset) }
{
    need(offset <= out.len(), Refusal::Lent)?;
    let track = open(store)?;
    read_accepted(track, out, offset)
}
