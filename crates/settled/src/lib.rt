// The settled data bits of a run of points, from the bytes that receive_points wrote: what a library over the receiver reads.
#![tactic(auto)]

ghost use Rattle.std.specs.Prelude.{◌≡◌, ◌+◌, ◌*◌, ◌<◌, ◌≤◌, T, leb, length as size, drop};
ghost use Rattle.std.proofs.lemmas.List.Edits.{sets};
ghost use Rattle.line.specs.Table.{every};
ghost use Rattle.settled.specs.Run.{data_in, data_of_bytes, any_settled, all_settled, before, following, run_answer, run_bytes, Told};
ghost use Rattle.settled.specs.Points.{at_most, points_bits};

use line::Refusal;

// The point at which a run begins, how many points it has, and how many settled data bits.
#[derive(Clone, Copy)]
pub struct Run {
    pub first: usize,
    pub points: usize,
    pub bits: usize,
}

// Whether a point has a settled data bit: it has data bits, and fewer than w of them are unsettled.
fn has_settled(w: u8, line: u8, plain: u8) -> bool
    ensures { result ≡ any_settled (data_in w line plain) }
{
    (line < 16) & (plain / 16 < w)
}

// Whether a point has data bits and none is unsettled. Two tests, each the definition of its name in specs/Run: one with a bound to pass
// (w or 1) would say neither at its calls.
fn all_settled(w: u8, line: u8, plain: u8) -> bool
    requires { 0 < w }
    ensures { result ≡ all_settled (data_in w line plain) }
{
    (line < 16) & (plain < 16)
}

// The first point with a settled data bit, or the count of points. A `position` over a zip is no plainer: it needs the count for none said
// besides, and in `run_end` two cuts and a sum as well.
fn first_settled(w: u8, line: &[u8], plain: &[u8]) -> usize
    requires { size line.now ≡ size plain.now }
    ensures { (result ≤ size line.now) × (result ≡ before (data_of_bytes w line.now plain.now)) }
{
    for k in 0..line.len() {
        if has_settled(w, line[k], plain[k]) {
            return k;
        }
    }
    line.len()
}

// The first point from `from` on that has not all its data bits settled, or the count of points.
fn run_end(w: u8, line: &[u8], plain: &[u8], from: usize) -> usize
    requires { (0 < w) × (size line.now ≡ size plain.now) × (from ≤ size line.now) }
    ensures { (result ≤ size line.now) × (result ≡ from + following (data_of_bytes w (drop from line.now) (drop from plain.now))) }
{
    for k in from..line.len() {
        if !all_settled(w, line[k], plain[k]) {
            return k;
        }
    }
    line.len()
}

// Whether b bits and w for each of `more` points fit. The product is not formed before it is known to fit: it could overflow.
fn has_room(b: usize, w: usize, more: usize, lent: usize) -> bool
    requires { 0 < w }
    ensures { result ≡ leb (b + more * w) lent }
{
    if lent < b {
        return false;
    }
    more <= (lent - b) / w
}

// The answer, with so many bytes lent.
fn find_run(mode: u8, line: &[u8], plain: &[u8], lent: usize) -> Result<Run, Refusal>
    ensures { result ≡ run_answer mode line.now plain.now lent }
{
    if !line::mode_ok(mode) {
        return Err(Refusal::Mode);
    }
    let n = line.len();
    if n != plain.len() {
        return Err(Refusal::Lent);
    }
    let w = line::width_of(mode);
    let first = first_settled(w, line, plain);
    if first == n {
        return Ok(Run {
            first,
            points: 0,
            bits: 0,
        });
    }
    let end = run_end(w, line, plain, first + 1);
    let b = (w - plain[first] / 16) as usize;
    let each = w as usize;
    let more = end - first - 1;
    if has_room(b, each, more, lent) {
        return Ok(Run {
            first,
            points: more + 1,
            bits: b + more * each,
        });
    }
    Err(Refusal::Lent)
}

// The settled data bits of points with at most w unsettled ones, one point after the other, into the front of `out`.
fn put_run(w: usize, plain: &[u8], out: &mut [u8])
    requires { T (every (at_most w) plain.now) × (size (points_bits w plain.now) ≤ size out.old) }
    ensures { out.new ≡ sets out.old 0 (points_bits w plain.now) }
{
    let mut at = 0;
    for p in plain {
        let e = at + (w - usize::from(*p / 16));
        bits::put_bits(&mut out[at..e], u32::from(*p));
        at = e;
    }
}

// Finds the first run of settled data bits and writes them, one in a byte.
pub fn settled_bits(mode: u8, line: &[u8], plain: &[u8], out: &mut [u8]) -> Result<Run, Refusal>
    ensures value { result ≡ run_answer mode line.now plain.now (size out.old) }
    ensures out_after { out.new ≡ run_bytes mode line.now plain.now out.old }
    ensures told { Told mode line.now plain.now (size out.old) result }
{
    let run = find_run(mode, line, plain, out.len())?;
    let first = run.first;
    let end = first + run.points;
    let w = line::width_of(mode) as usize;
    put_run(w, &plain[first..end], out);
    Ok(run)
}
