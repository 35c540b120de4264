// The scrambler's register, and scrambling and descrambling the bits of a point: document 01; the guard of modes 5 and 6: document 02, R-6.
#![tactic(auto)]

ghost use Rattle.std.specs.Prelude.{◌≡◌, true, cond, eqb, leb, ltb, ◌∷◌, [], ◌+◌, ◌*◌, ◌-◌, ◌^◌, ◌/◌, ◌%◌, ◌≤◌, ◌<◌, min};
ghost use Rattle.line.specs.Mode.{column, width, far_tap, guarded, capacity};
ghost use Rattle.scrambler.specs.Bits.{bits, value};
ghost use Rattle.scrambler.specs.Register.{register, fresh, near_tap, pushes, register_ok};
ghost use Rattle.scrambler.specs.Group.{scrambled, guard_mode, descrambled};
ghost use Rattle.scrambler.specs.Windows.{mixed_at_once, differ_at_once, inversions, count_over};

// A count of bits, never to be taken for one of unit intervals.
#[derive(Clone, Copy)]
pub struct BitCount(pub u8);

// The last line bits as a number, the newest lowest, how many there are, and the guard's count.
#[derive(Clone, Copy)]
pub struct Register {
    pub bits: u32,
    pub held: BitCount,
    pub count: BitCount,
}

// A group of line bits, the first in time highest, and the register after it.
#[derive(Clone, Copy)]
pub struct Scrambled {
    pub line: u8,
    pub next: Register,
}

// A group of data bits, the first in time highest, how many of the first are unsettled, and the register after it.
#[derive(Clone, Copy)]
pub struct Descrambled {
    pub plain: u8,
    pub unsettled: BitCount,
    pub next: Register,
}

// A register without line bits.
pub fn fresh_register() -> Register
    ensures { result ≡ fresh }
{
    Register {
        bits: 0,
        held: BitCount(0),
        count: BitCount(0),
    }
}

// The greatest count that number 4 lets pass with so many line bits, in a mode with the guard.
fn count_limit(held: u8) -> u8
    ensures { result ≡ cond (leb 12 held) 33 0 }
{
    if held < 12 { 0 } else { 33 }
}

// What number 4 asks of a register. Each way has all of its test, so that the compiler joins nothing across them: 1 ns of a single call.
pub fn register_ok(mode: u8, h: Register) -> bool
    ensures { result ≡ register_ok mode h }
{
    let held = h.held.0;
    let bits = h.bits;
    let count = h.count.0;
    if held <= line::capacity_of(mode) {
        if line::has_guard(mode) {
            return (bits >> (held as u32) == 0) & (count <= count_limit(held));
        }
        (bits >> (held as u32) == 0) & (count == 0)
    } else {
        false
    }
}

// ---- without the guard: a mode's column c, 1 to 4. Why it is a number: `line::column_of`. Width and register are said once more by the
// column (`width_in`, `capacity_in`), since by the mode the compiler would find the column at each.

// The nearer tap.
fn near_tap(c: u8, role: u8) -> u8
    requires { c ≤ 4 }
    ensures value { result ≡ near_tap c role }
    ensures lower_bound { (5 ≤ result) × (result ≤ 18) }
{
    if c <= 2 {
        6
    } else if role == 0 {
        18
    } else {
        5
    }
}

// The farther tap.
fn far_tap(c: u8) -> u8
    requires { c ≤ 4 }
    ensures value { result ≡ far_tap c }
    ensures lower_bound { (7 ≤ result) × (result ≤ 23) }
{
    if c <= 2 { 7 } else { 23 }
}

// The line bits in a point.
fn width_in(c: u8) -> u8
    requires { c ≤ 4 }
    ensures { result ≡ width c }
{
    if c <= 1 {
        2
    } else if c == 2 {
        3
    } else if c == 3 {
        2
    } else {
        4
    }
}

// The line bits that a register keeps.
fn capacity_in(c: u8) -> u8
    requires { c ≤ 4 }
    ensures { result ≡ capacity c }
{
    if c <= 2 { 7 } else { 23 }
}

// The lowest w bits of a number.
fn low_bits(c: u8, x: u32) -> u8
    requires { c ≤ 4 }
    ensures value { result ≡ x % 2 ^ width c }
    ensures upper_bound { result < 16 }
{
    if c <= 1 {
        (x % 4) as u8
    } else if c == 2 {
        (x % 8) as u8
    } else if c == 3 {
        (x % 4) as u8
    } else {
        (x % 16) as u8
    }
}

// The lowest bits of a number, as many as a register keeps.
fn keep_bits(c: u8, x: u64) -> u32
    requires { c ≤ 4 }
    ensures { result ≡ x % 2 ^ capacity c }
{
    if c <= 2 {
        (x % 128) as u32
    } else {
        (x % 8388608) as u32
    }
}

// The bits of a group xor those a and R back.
fn mixed(c: u8, role: u8, n: u32, x: u8) -> u8
    requires { c ≤ 4 }
    ensures value { result ≡ mixed_at_once c role n x }
    ensures upper_bound { result < 16 }
{
    let w = width_in(c);
    let near = (near_tap(c, role) - w) as u32;
    let far = (far_tap(c) - w) as u32;
    low_bits(c, (x as u32) ^ (n >> near) ^ (n >> far))
}

// The register after a group.
fn push_group(c: u8, h: Register, g: u8) -> Register
    requires { c ≤ 4 }
    ensures { result ≡ pushes c h (bits (width c) g) }
{
    let n = h.bits as u64;
    let held = h.held.0;
    let w = width_in(c);
    let full = capacity_in(c);
    let low = low_bits(c, g as u32) as u64;
    let bits = keep_bits(c, n * group_size(w) + low);
    let more = held.saturating_add(w).min(full);
    Register {
        bits,
        held: BitCount(more),
        count: BitCount(0),
    }
}

// 2 to the power of w.
fn group_size(w: u8) -> u64
    requires { (2 ≤ w) × (w ≤ 4) }
    ensures value { result ≡ 2 ^ w }
    ensures upper_bound { result ≤ 16 }
{
    1 << u32::from(w)
}

// The line bits of w data bits in the mode of the column. It has one caller, so that it is put in line there.
pub fn scramble_plain(mode: u8, role: u8, h: Register, plain: u8) -> Scrambled
    ensures { result ≡ scrambled (column mode) role h plain }
{
    let c = line::column_of(mode);
    let line = mixed(c, role, h.bits, plain);
    Scrambled {
        line,
        next: push_group(c, h, line),
    }
}

// The data bits of w line bits after a full register of bits n, as nearly all points find it: nothing is counted.
fn next_bits(c: u8, role: u8, n: u32, line: u8) -> Descrambled
    requires { c ≤ 4 }
    ensures { result ≡ descrambled c role (register n (capacity c) 0) line }
{
    let low = low_bits(c, line as u32) as u64;
    let bits = keep_bits(c, (n as u64) * group_size(width_in(c)) + low);
    Descrambled {
        plain: mixed(c, role, n, line),
        unsettled: BitCount(0),
        next: Register {
            bits,
            held: BitCount(capacity_in(c)),
            count: BitCount(0),
        },
    }
}

// The same with a way of its own for each column: there all that depends on it is a constant, and the function is small enough to be put
// in line in both of its callers.
pub fn descramble_next(mode: u8, role: u8, n: u32, line: u8) -> Descrambled
    ensures { result ≡ descrambled (column mode) role (register n (capacity (column mode)) 0) line }
{
    let c = line::column_of(mode);
    if c <= 1 {
        next_bits(1, role, n, line)
    } else if c == 2 {
        next_bits(2, role, n, line)
    } else if c == 3 {
        next_bits(3, role, n, line)
    } else {
        next_bits(4, role, n, line)
    }
}

// How many of w data bits are unsettled.
fn unsettled_bits(w: u8, full: u8, held: u8) -> u8
    ensures { result ≡ min (full - held) w }
{
    full.saturating_sub(held).min(w)
}

// How many of the w data bits of a group are unsettled, with so many line bits held before it.
pub fn unsettled_of(mode: u8, held: u8) -> u8
    ensures value { result ≡ min (capacity mode - held) (width mode) }
    ensures upper_bound { result ≤ 4 }
{
    unsettled_bits(line::width_of(mode), line::capacity_of(mode), held)
}

// A group without its first u bits.
fn without_first(w: u8, u: u8, x: u8) -> u8
    requires { (u ≤ w) × (w ≤ 4) × (x < 2 ^ w) }
    ensures { result ≡ x % 2 ^ (w - u) }
{
    x % (1 << u32::from(w - u))
}

// The data bits of a group without the unsettled ones.
pub fn settled_of(mode: u8, held: u8, plain: u8) -> u8
    ensures value { result ≡ plain % 2 ^ (width mode - min (capacity mode - held) (width mode)) }
    ensures upper_bound { result < 16 }
{
    let w = line::width_of(mode);
    let u = unsettled_bits(w, line::capacity_of(mode), held);
    without_first(w, u, low_bits(line::column_of(mode), plain as u32))
}

// The line bits held after a group.
pub fn held_after(mode: u8, held: u8) -> u8
    ensures { result ≡ min (held + width mode) (capacity mode) }
{
    let w = line::width_of(mode);
    let full = line::capacity_of(mode);
    held.saturating_add(w).min(full)
}

// ---- with the guard: for a register that may lack bits, and again for a full one, since what is constant there lets the compiler put it in line

// What the guard does to a group: the bits that it inverts, the first in time highest, and its count after them.
#[derive(Clone, Copy)]
struct Guarded {
    count: u8,
    inverted: u8,
}

// The bits of a group that differ from all three line bits 8, 9 and 12 back, in its lowest bits.
fn differing(w: u8, n: u32, y: u8) -> u32
    requires { (2 ≤ w) × (w ≤ 4) }
    ensures { result ≡ differ_at_once w n y }
{
    let x = y as u32;
    let k = w as u32;
    (x ^ (n >> (8 - k))) & (x ^ (n >> (9 - k))) & (x ^ (n >> (12 - k)))
}

// The bit of a group that is inverted, or 0: the one at which the count is 33, if none before it differs.
fn inverted_bit(place: u8, d: u8) -> u8
    requires { place ≤ 15 }
    ensures value { result ≡ cond (ltb d (2 * place)) place 0 }
    ensures upper_bound { result ≤ place }
{
    if d < 2 * place { place } else { 0 }
}

// The count after a group: how many bits follow the last one that sets it to zero, or `last` if none does. 4624 holds these numbers for
// the groups 0 to 7, two bits each.
fn count_after(last: u8, zeros: u8) -> u8
    requires { zeros < 16 }
    ensures { result ≡ cond (eqb zeros 0) last (4624 / 2 ^ (2 * zeros) % 4) }
{
    if zeros == 0 {
        return last;
    }
    let numbers: u32 = 4624;
    ((numbers >> ((2 * zeros) as u32)) % 4) as u8
}

// The guard along the last bits of a group, those before which 12 line bits came; d are those that differ. All are taken together, with
// nothing to branch on: so the functions for modes 5 and 6 are small enough to be put in line.
fn guard_over(left: u8, count: u8, d: u8) -> Guarded
    requires { (left ≤ 3) × (count ≤ 33) × (d < 2 ^ left) }
    ensures inverted_value { (result.inverted ≡ value (inversions 6 12 count (bits left d))) × (result.count ≡ count_over 6 12 count (bits left d)) }
    ensures inverted_bound { result.inverted < 8 }
{
    let last = count + left;
    // The count is 33 at the last bit if `last` is 34, at the third last, whose place is 4, if it is 36.
    let third: u64 = 4;
    let place = (third >> ((36 - last) as u32)) as u8;
    let inverted = inverted_bit(place, d);
    Guarded {
        count: count_after(last, d | inverted),
        inverted,
    }
}

// The count that the guard starts from: none before 12 line bits are held, and no more than 33.
fn first_count(unsettled: u8, count: u8) -> u8
    ensures value { result ≡ cond (ltb 0 unsettled) 0 (min count 33) }
    ensures upper_bound { result ≤ 33 }
{
    if 0 < unsettled {
        return 0;
    }
    if count <= 33 { count } else { 33 }
}

// What the guard does to the line bits y of a group after the line bits n.
fn guard(mode: u8, held: u8, count: u8, n: u32, y: u8) -> Guarded
    requires { guarded mode ≡ true }
    ensures inverted_value { (result.inverted ≡ value (inversions mode held count (bits (width mode) (differ_at_once (width mode) n y)))) × (result.count ≡ count_over mode held count (bits (width mode) (differ_at_once (width mode) n y))) }
    ensures inverted_bound { result.inverted < 8 }
{
    let w = line::width_of(mode);
    let u = unsettled_bits(w, 12, held);
    let d = low_bits(line::column_of(mode), differing(w, n, y));
    guard_over(w - u, first_count(u, count), without_first(w, u, d))
}

// The same for any mode: without the guard nothing is inverted and nothing counted.
fn guard_of(mode: u8, held: u8, count: u8, n: u32, y: u8) -> Guarded
    ensures inverted_value { (result.inverted ≡ value (inversions mode held count (bits (width mode) (differ_at_once (width mode) n y)))) × (result.count ≡ count_over mode held count (bits (width mode) (differ_at_once (width mode) n y))) }
    ensures inverted_bound { result.inverted < 8 }
{
    if line::has_guard(mode) {
        return guard(mode, held, count, n, y);
    }
    Guarded {
        count: 0,
        inverted: 0,
    }
}

// The lowest bits of a number, as many as a mode's register keeps.
fn keep_of(mode: u8, x: u64) -> u32
    ensures { result ≡ x % 2 ^ capacity mode }
{
    if line::has_guard(mode) {
        return (x % 4096) as u32;
    }
    keep_bits(line::column_of(mode), x)
}

// The register after a group of any mode, with the guard's count after it.
fn push_counted(mode: u8, h: Register, g: u8, count: u8) -> Register
    ensures { (result.bits ≡ (pushes mode h (bits (width mode) g)).bits) × (result.held.0 ≡ (pushes mode h (bits (width mode) g)).held.0) × (result.count.0 ≡ count) }
{
    let n = h.bits as u64;
    let held = h.held.0;
    let w = line::width_of(mode);
    let full = line::capacity_of(mode);
    let low = low_bits(line::column_of(mode), g as u32) as u64;
    let bits = keep_of(mode, n * group_size(w) + low);
    let more = held.saturating_add(w).min(full);
    Register {
        bits,
        held: BitCount(more),
        count: BitCount(count),
    }
}

// The line bits of w data bits, after a register given by its fields: a register that is handed over as one piece would have to stand in
// memory in the caller's loop, also where this is not called.
pub fn scramble_group(mode: u8, role: u8, n: u32, held: u8, count: u8, plain: u8) -> Scrambled
    ensures { result ≡ scrambled mode role (register n held count) plain }
{
    let all = mixed(line::column_of(mode), role, n, plain);
    let g = guard_of(mode, held, count, n, all);
    let line = all ^ g.inverted;
    let h = Register {
        bits: n,
        held: BitCount(held),
        count: BitCount(count),
    };
    Scrambled {
        line,
        next: push_counted(mode, h, line, g.count),
    }
}

// The data bits of w line bits, likewise.
pub fn descramble_group(mode: u8, role: u8, n: u32, held: u8, count: u8, line: u8) -> Descrambled
    ensures { result ≡ descrambled mode role (register n held count) line }
{
    let w = line::width_of(mode);
    let u = unsettled_bits(w, line::capacity_of(mode), held);
    let g = guard_of(mode, held, count, n, line);
    let all = mixed(line::column_of(mode), role, n, line) ^ g.inverted;
    let h = Register {
        bits: n,
        held: BitCount(held),
        count: BitCount(count),
    };
    Descrambled {
        plain: without_first(w, u, all),
        unsettled: BitCount(u),
        next: push_counted(mode, h, line, g.count),
    }
}

// The same after a full register of bits n and a count.
fn counted_bits(mode: u8, role: u8, n: u32, count: u8, line: u8) -> Descrambled
    ensures { result ≡ descrambled mode role (register n (capacity mode) count) line }
{
    let c = line::column_of(mode);
    let low = low_bits(c, line as u32) as u64;
    let bits = keep_of(mode, (n as u64) * group_size(line::width_of(mode)) + low);
    let full = line::capacity_of(mode);
    let g = guard_of(mode, full, count, n, line);
    Descrambled {
        plain: mixed(c, role, n, line) ^ g.inverted,
        unsettled: BitCount(0),
        next: Register {
            bits,
            held: BitCount(full),
            count: BitCount(g.count),
        },
    }
}

// The mode that one above 4 counts as.
fn guard_mode(mode: u8) -> u8
    ensures { result ≡ guard_mode mode }
{
    if mode <= 5 { 5 } else { 6 }
}

// The data bits of w line bits after a full register, with the guard. It is small enough to be put in line in its callers, since there is
// nothing in it to branch on.
pub fn descramble_counted(mode: u8, role: u8, n: u32, count: u8, line: u8) -> Descrambled
    ensures { result ≡ descrambled (guard_mode mode) role (register n (capacity (guard_mode mode)) count) line }
{
    counted_bits(guard_mode(mode), role, n, count, line)
}

// The line bits of w data bits after a full register.
fn counted_line(mode: u8, role: u8, n: u32, count: u8, plain: u8) -> Scrambled
    ensures { result ≡ scrambled mode role (register n (capacity mode) count) plain }
{
    let full = line::capacity_of(mode);
    let column = line::column_of(mode);
    let all = mixed(column, role, n, plain);
    let guarded = guard_of(mode, full, count, n, all);
    let line = all ^ guarded.inverted;
    let before = Register {
        bits: n,
        held: BitCount(full),
        count: BitCount(count),
    };
    Scrambled {
        line,
        next: push_counted(mode, before, line, guarded.count),
    }
}

// The same with the guard, likewise small.
pub fn scramble_counted(mode: u8, role: u8, n: u32, count: u8, plain: u8) -> Scrambled
    ensures { result ≡ scrambled (guard_mode mode) role (register n (capacity (guard_mode mode)) count) plain }
{
    counted_line(guard_mode(mode), role, n, count, plain)
}
