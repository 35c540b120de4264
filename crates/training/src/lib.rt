// What the sender's training does interval by interval: document 01, "Sender".
#![tactic(auto)]

ghost use Rattle.std.specs.Prelude.{◌≡◌, ◌+◌, ◌*◌, ◌%◌, ◌≤◌, ◌<◌};
ghost use Rattle.line.specs.Mode.{column, width};
ghost use Rattle.scrambler.specs.Bits.{bits};
ghost use Rattle.training.specs.Coder.{coding};
ghost use Rattle.training.specs.Training.{reversals, changes, dibit_state, train32, intervals};
ghost use Rattle.training.specs.Middle.{MiddleTable};
ghost use Rattle.training.specs.Ahead.{ahead27, ahead, ahead_start};

mod middle; // the table of V.27 ter's middle changes

// What sending changes: the reference and the register of line bits.
#[derive(Clone, Copy)]
pub struct Coder {
    pub reference: u8,
    pub line: scrambler::Register,
}

// The middle changes of V.27 ter. A caller binds them once before a loop: a constant is built anew at each use.
pub fn middle_changes() -> [u8; 1074]
    ensures { MiddleTable result }
{
    middle::CHANGES
}

// A point's data bits, as a number, sent after a reference and a register.
fn code_group(mode: u8, role: u8, c: Coder, plain: u8) -> Coder
    ensures { result ≡ coding mode role c (bits (width mode) plain) }
{
    let register = c.line;
    let s = scrambler::scramble_group(
        mode,
        role,
        register.bits,
        register.held.0,
        register.count.0,
        plain,
    );
    let next = s.next;
    Coder {
        reference: coding::next_state(mode, c.reference, s.line),
        line: next,
    }
}

// The reversals of V.27 ter, and the changes after them. Two functions, since one with both numbers as const parameters would lose their
// names at each call and be no plainer.
fn reversal_count(choice: u32) -> usize
    ensures value { result ≡ reversals choice }
    ensures upper_bound { result ≤ 50 }
{
    if choice == 0 { 14 } else { 50 }
}

fn change_count(choice: u32) -> usize
    ensures value { result ≡ changes choice }
    ensures upper_bound { result ≤ 1074 }
{
    if choice == 0 { 58 } else { 1074 }
}

// The intervals of a training.
pub fn interval_count(mode: u8, length: u32) -> usize
    ensures { result ≡ intervals mode length }
{
    if line::column_of(mode) <= 2 {
        reversal_count(length) + change_count(length) + 8
    } else {
        272 + (length as usize)
    }
}

// The line bits that the middle changes of V.27 ter leave, the last 7 or, with the guard, 12 of them; V.32 starts with zeros.
fn first_bits(mode: u8) -> u32
    ensures { result ≡ (ahead_start mode).line.bits }
{
    if line::has_guard(mode) {
        return 3345;
    }
    if line::column_of(mode) <= 2 { 17 } else { 0 }
}

// The register that training starts from, with a count of zero.
fn start_register(mode: u8) -> scrambler::Register
    ensures { result ≡ (ahead_start mode).line }
{
    scrambler::Register {
        bits: first_bits(mode),
        held: scrambler::BitCount(line::capacity_of(mode)),
        count: scrambler::BitCount(0),
    }
}

// What training starts from; the register of V.27 ter is the one that the middle changes leave.
pub fn training_start(mode: u8) -> Coder
    ensures { result ≡ ahead_start mode }
{
    let line = start_register(mode);
    if line::column_of(mode) <= 2 {
        Coder { reference: 0, line }
    } else {
        Coder { reference: 1, line }
    }
}

// A V.27 ter state turned by 180° so many times.
fn half_turns(reference: u8, n: u8) -> u8
    ensures { result ≡ (reference + 4 * n) % 8 }
{
    (reference % 8 + n % 2 * 4) % 8
}

// An interval of V.27 ter.
fn train_v27(mode: u8, role: u8, choice: u32, i: usize, c: Coder, t: &[u8; 1074]) -> Coder
    ensures { result ≡ ahead27 t.now mode role choice i c }
{
    let line = c.line;
    let n = reversal_count(choice);
    if i < n {
        return Coder {
            reference: half_turns(c.reference, 1),
            line,
        };
    }
    if i < n + change_count(choice) {
        return Coder {
            reference: half_turns(c.reference, t[i - n]),
            line,
        };
    }
    code_group(mode, role, c, 15)
}

// The state of a dibit of scrambled ones: the states are in the order of the dibits, four apart.
fn dibit_state(i: usize, dibit: u8) -> u8
    requires { dibit < 4 }
    ensures { result ≡ dibit_state i (bits 2 dibit) }
{
    if i < 528 {
        dibit / 2 * 12 + 1
    } else {
        4 * dibit + 1
    }
}

// An interval of V.32; modes 3 and 4 have one scrambler, of which two bits are spent.
fn train_v32(mode: u8, role: u8, i: usize, c: Coder) -> Coder
    requires { 2 < column mode }
    ensures { result ≡ train32 mode role i c }
{
    let line = c.line;
    let odd = (i % 2) as u8;
    if i < 256 {
        return Coder {
            reference: 1 + odd * 4,
            line,
        };
    }
    if i < 272 {
        return Coder {
            reference: 13 - odd * 4,
            line,
        };
    }
    let s = scrambler::scramble_group(3, role, line.bits, line.held.0, line.count.0, 3);
    let next = s.next;
    Coder {
        reference: dibit_state(i, s.line),
        line: next,
    }
}

// An interval of training, by the table of middle changes.
pub fn train_interval(mode: u8, role: u8, length: u32, i: usize, c: Coder, t: &[u8; 1074]) -> Coder
    ensures { result ≡ ahead t.now mode role length i c }
{
    if line::column_of(mode) <= 2 {
        train_v27(mode, role, length, i, c, t)
    } else {
        train_v32(mode, role, i, c)
    }
}
