// The sender: opening writes training, sending writes the points of data bits. Document 01, "Sender".
#![tactic(auto)]

ghost use Rattle.std.specs.Prelude.{◌≡◌, ◌*◌, ◌/◌, ◌≤◌, ◌<◌, T, length as size, false};
ghost use Rattle.std.proofs.lemmas.List.Edits.{sets};
ghost use Rattle.line.specs.Table.{every};
ghost use Rattle.line.specs.Mode.{guarded, width, capacity};
ghost use Rattle.line.specs.Refusal.{numbered};
ghost use Rattle.scrambler.specs.Bits.{is_bit, bits, value};
ghost use Rattle.scrambler.specs.Register.{register};
ghost use Rattle.scrambler.specs.Group.{guard_mode};
ghost use Rattle.training.specs.Training.{train, start, intervals, trained};
ghost use Rattle.sender.specs.Sender.{fields_ok, state_refusal, has_room, data_refusal, send_refusal, after_group, after_bits, bit_numbers, send_answer, send_numbers, Told};
ghost use Rattle.sender.specs.Open.{length_ok, open_refusal, opened, training_numbers, open_answer, open_numbers};

use line::Refusal;

// What a sending call needs and hands on.
#[derive(Clone, Copy)]
pub struct Sender {
    pub mode: u8,
    pub role: u8,
    pub reference: u8,
    pub line: scrambler::Register,
}

// What number 4 asks: the reference is a state of the mode, and the register is full with no bits beyond it.
fn fields_ok(s: Sender) -> bool
    ensures { result ≡ fields_ok s }
{
    let register = s.line;
    let full = register.held.0 == line::capacity_of(s.mode);
    line::state_ok(s.mode, s.reference) & (full & scrambler::register_ok(s.mode, register))
}

// What is wrong with a handed-in state.
#[tactic(auto, unfolding(crate::specs::Sender::state_refusal))]
fn state_fault(s: Sender) -> Result<(), Refusal>
    ensures { numbered result ≡ state_refusal s }
{
    line::mode_fault(s.mode, s.role)?;
    line::need(fields_ok(s), Refusal::State)
}

// Whether the points fit from the offset on.
fn has_room(points: usize, len: usize, offset: usize) -> bool
    ensures { result ≡ has_room points len offset }
{
    if len < offset {
        return false;
    }
    points <= (len - offset) / 2
}

// What is wrong with the data bits and the lent numbers.
#[tactic(auto, unfolding(crate::specs::Sender::data_refusal))]
fn data_fault(mode: u8, input: &[u8], len: usize, offset: usize) -> Result<(), Refusal>
    ensures { numbered result ≡ data_refusal mode input.now len offset }
{
    let w = line::width_of(mode) as usize;
    line::need(bits::are_bits(input), Refusal::Bit)?;
    line::need(input.len() % w == 0, Refusal::BitCount)?;
    line::need(has_room(input.len() / w, len, offset), Refusal::Lent)
}

// What is wrong with a sending call.
#[tactic(auto, unfolding(crate::specs::Sender::send_refusal))]
fn send_fault(s: Sender, input: &[u8], len: usize, offset: usize) -> Result<(), Refusal>
    ensures { numbered result ≡ send_refusal s input.now len offset }
{
    state_fault(s)?;
    data_fault(s.mode, input, len, offset)
}

// The bits of a group as a number, the first highest. A loop over them took up to twice as long for a point (measured in a copy of the
// writer in Rust).
fn group_value(group: &[u8]) -> u8
    requires { (2 ≤ size group.now) × (size group.now ≤ 4) × T (every is_bit group.now) }
    ensures { result ≡ value group.now }
{
    let two = 2 * group[0] + group[1];
    if group.len() == 2 {
        return two;
    }
    let three = 2 * two + group[2];
    if group.len() == 3 {
        return three;
    }
    2 * three + group[3]
}

// A register of so many line bits, with nothing counted. Training begins with one of a mode's own bits; here the count stands in the state
// already, and the loop asks nothing of the mode for it.
fn full_register(held: u8, bits: u32) -> scrambler::Register
    ensures { result ≡ register bits held 0 }
{
    scrambler::Register {
        bits,
        held: scrambler::BitCount(held),
        count: scrambler::BitCount(0),
    }
}

// The point writer without the guard: the points of whole groups, from the front of `out`. The register stays full and nothing is counted,
// so that only the reference and the register's bits go round.
fn write_points(s: Sender, input: &[u8], out: &mut [i16]) -> Sender
    requires { (guarded s.mode ≡ false) × (s.line ≡ register s.line.bits (capacity s.mode) 0)
        × T (every is_bit input.now) × (2 * (size input.now / width s.mode) ≤ size out.old) }
    ensures { (result ≡ after_bits s input.now) × (out.new ≡ sets out.old 0 (bit_numbers s input.now)) }
{
    let mode = s.mode;
    let w = line::width_of(mode) as usize;
    let points = line::constellation(mode);
    let mut reference = s.reference;
    let mut bits = s.line.bits;
    for (k, group) in input.chunks_exact(w).enumerate() {
        let h = full_register(s.line.held.0, bits);
        let g = scrambler::scramble_plain(mode, s.role, h, group_value(group));
        reference = coding::coded_in(mode, reference, g.line);
        bits = g.next.bits;
        let state = (reference as usize) % 16;
        let p = points[state];
        out[2 * k] = p.re;
        out[2 * k + 1] = p.im;
    }
    let line = full_register(s.line.held.0, bits);
    Sender {
        mode,
        role: s.role,
        reference,
        line,
    }
}

// The sender after a group, with the guard and a full register.
fn send_counted(s: Sender, plain: u8) -> Sender
    requires { (guard_mode s.mode ≡ s.mode) × (s.line.held.0 ≡ capacity s.mode) }
    ensures value { result ≡ after_group s (bits (width s.mode) plain) }
    ensures held_value { result.line.held.0 ≡ capacity s.mode }
{
    let h = s.line;
    let d = scrambler::scramble_counted(s.mode, s.role, h.bits, h.count.0, plain);
    let line = d.next;
    Sender {
        mode: s.mode,
        role: s.role,
        reference: coding::next_state(s.mode, s.reference, d.line),
        line,
    }
}

// The same with the guard, for which the count goes round, too.
fn write_counted(s: Sender, input: &[u8], out: &mut [i16]) -> Sender
    requires { (guard_mode s.mode ≡ s.mode) × (s.line.held.0 ≡ capacity s.mode)
        × T (every is_bit input.now) × (2 * (size input.now / width s.mode) ≤ size out.old) }
    ensures { (result ≡ after_bits s input.now) × (out.new ≡ sets out.old 0 (bit_numbers s input.now)) }
{
    let mode = s.mode;
    let w = line::width_of(mode) as usize;
    let points = line::constellation(mode);
    let mut t = s;
    for (k, group) in input.chunks_exact(w).enumerate() {
        t = send_counted(t, group_value(group));
        let state = (t.reference as usize) % 16;
        let point = points[state];
        out[2 * k] = point.re;
        out[2 * k + 1] = point.im;
    }
    t
}

// Sends data bits, one in a byte: their points stand in `out` from `offset` on.
pub fn send(s: Sender, input: &[u8], out: &mut [i16], offset: usize) -> Result<Sender, Refusal>
    ensures value { result ≡ send_answer s input.now (size out.old) offset }
    ensures out_after { out.new ≡ send_numbers s input.now out.old offset }
    ensures told { Told (send_refusal s input.now (size out.old) offset) (after_bits s input.now) result }
{
    send_fault(s, input, out.len(), offset)?;
    if line::has_guard(s.mode) {
        let t = write_counted(s, input, &mut out[offset..]);
        return Ok(t);
    }
    let t = write_points(s, input, &mut out[offset..]);
    Ok(t)
}

// What number 3 asks.
fn length_ok(mode: u8, length: u32) -> bool
    ensures { result ≡ length_ok mode length }
{
    if line::column_of(mode) <= 2 {
        length <= 1
    } else {
        (1280 <= length) & (length <= 8192)
    }
}

// What is wrong with a call that opens a sender.
#[tactic(auto, unfolding(crate::specs::Open::open_refusal))]
pub fn open_refusal(
    mode: u8,
    role: u8,
    length: u32,
    len: usize,
    offset: usize,
) -> Result<(), Refusal>
    ensures { numbered result ≡ open_refusal mode role length len offset }
{
    line::mode_fault(mode, role)?;
    line::need(length_ok(mode, length), Refusal::TrainingLength)?;
    let points = training::interval_count(mode, length);
    line::need(has_room(points, len, offset), Refusal::Lent)
}

// The point writer of training, from the front of `out`.
fn write_training(mode: u8, role: u8, length: u32, out: &mut [i16]) -> training::Coder
    requires { 2 * intervals mode length ≤ size out.old }
    ensures { (result ≡ trained (train mode role length) 0 (intervals mode length) (start mode))
        × (out.new ≡ sets out.old 0 (training_numbers mode role length)) }
{
    let t = training::middle_changes();
    let points = line::constellation(mode);
    let n = training::interval_count(mode, length);
    let mut c = training::training_start(mode);
    for i in 0..n {
        c = training::train_interval(mode, role, length, i, c, &t);
        let state = (c.reference as usize) % 16;
        let point = points[state];
        out[2 * i] = point.re;
        out[2 * i + 1] = point.im;
    }
    c
}

// Opens a sender: its training stands in `out` from `offset` on.
pub fn open(
    mode: u8,
    role: u8,
    length: u32,
    out: &mut [i16],
    offset: usize,
) -> Result<Sender, Refusal>
    ensures value { result ≡ open_answer mode role length (size out.old) offset }
    ensures out_after { out.new ≡ open_numbers mode role length out.old offset }
    ensures told { Told (open_refusal mode role length (size out.old) offset) (opened mode role length) result }
{
    open_refusal(mode, role, length, out.len(), offset)?;
    let c = write_training(mode, role, length, &mut out[offset..]);
    let line = c.line;
    Ok(Sender {
        mode,
        role,
        reference: c.reference,
        line,
    })
}
