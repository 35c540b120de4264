// The differential code: document 01.
#![tactic(auto)]

ghost use Rattle.std.specs.Prelude.{◌≡◌, cond, ◌+◌, ◌*◌, ◌≤◌, ◌<◌, min, eqb, get_or};
ghost use Rattle.line.specs.Table.{entry, first_row};
ghost use Rattle.line.specs.Mode.{face};
ghost use Rattle.coding.specs.Code.{changes4, changes8, changes16, coded, turn_row, group};
ghost use Rattle.coding.specs.Rule.{place, turns_for, row_unit};
ghost use Rattle.coding.specs.Rows.{row_index, row_at, with_row, Rows};

// 000's tables 2 and 1: the changes of 2 and of 3 bits, in turns of 90° and of 45°. Sender and receiver both read them. 001's
// table 1 is computed.
const CHANGES4: [u8; 4] = [0, 1, 3, 2];

const CHANGES8: [u8; 8] = [1, 0, 2, 3, 6, 7, 5, 4];

fn change4(g: usize) -> u8
    ensures value { result ≡ entry changes4 g }
    ensures upper_bound { result < 4 }
{
    CHANGES4[g % 4]
}

fn change8(g: usize) -> u8
    ensures value { result ≡ entry changes8 g }
    ensures upper_bound { result < 8 }
{
    CHANGES8[g % 8]
}

// The place of Y1 Y2 in the ring 00, 01, 11, 10, and Y1 Y2 at a place: 2·Y1 + (Y1 xor Y2).
fn ring_place(y: u8) -> u8
    requires { y < 4 }
    ensures value { result ≡ place y }
    ensures upper_bound { result < 4 }
{
    y ^ y / 2
}

// The turns of 90° for Q1 Q2, and Q1 Q2 for turns: 2·Q1 + not (Q1 xor Q2).
fn turns_for(q: u8) -> u8
    requires { q < 4 }
    ensures value { result ≡ turns_for q }
    ensures upper_bound { result < 4 }
{
    q ^ q / 2 ^ 1
}

// Y1 Y2 turned by Q1 Q2: the row of 001's table 1.
fn change16(q: u8, y: u8) -> u8
    requires { y < 4 }
    ensures value { result ≡ entry changes16 (4 * q + y) }
    ensures upper_bound { result < 4 }
{
    ring_place((turns_for(q % 4) + ring_place(y)) % 4)
}

// The state that a group of line bits gives after a reference, by the mode's column, which a caller finds once for many; a greater number
// is read as 4. That Y1 Y2 are taken first and mode 3 is asked for before mode 2 is for the compiler: in most other orders it puts the
// function in line in the sender's loop, and mode 2 takes longer.
pub fn coded_in(c: u8, reference: u8, g: u8) -> u8
    ensures { result ≡ coded (min c 4) (face (min c 4) reference) g }
{
    let bits = g as usize;
    let y = reference / 4 % 4;
    if c <= 1 {
        return (reference % 8 + 2 * change4(bits)) % 8;
    }
    if c == 3 {
        return 4 * change16(g, y) + 1;
    }
    if c == 2 {
        return (reference % 8 + change8(bits)) % 8;
    }
    4 * change16(g / 4, y) + g % 4
}

// The same of a mode. Here and below a mode's column is found once, and what branches takes the column.
pub fn next_state(mode: u8, reference: u8, g: u8) -> u8
    ensures { result ≡ coded mode (face mode reference) g }
{
    coded_in(line::column_of(mode), reference, g)
}

// The row, if it is the one; else 0.
fn row_if(hit: bool, row: usize) -> usize
    ensures value { result ≡ cond hit row 0 }
    ensures upper_bound { result ≤ row }
{
    if hit { row } else { 0 }
}

// The rows of 000's tables, by the change that they hold. Just one row holds it, and all are looked at.
fn row4(change: u8) -> usize
    requires { change < 4 }
    ensures value { result ≡ first_row (λ g. eqb (entry changes4 g) change) 3 }
    ensures upper_bound { result ≤ 3 }
{
    let t = CHANGES4;
    row_if(t[1] == change, 1) + row_if(t[2] == change, 2) + row_if(t[3] == change, 3)
}

fn row8(change: u8) -> usize
    requires { change < 8 }
    ensures value { result ≡ first_row (λ g. eqb (entry changes8 g) change) 7 }
    ensures upper_bound { result ≤ 7 }
{
    let t = CHANGES8;
    let low = row_if(t[1] == change, 1) + row_if(t[2] == change, 2) + row_if(t[3] == change, 3);
    let high = row_if(t[4] == change, 4) + row_if(t[5] == change, 5);
    low + high + row_if(t[6] == change, 6) + row_if(t[7] == change, 7)
}

// The row of 001's table 1 that turns y to z: Q1 Q2 of the turn.
fn row16(y: u8, z: u8) -> u8
    requires { (y < 4) × (z < 4) }
    ensures value { result ≡ turn_row y z }
    ensures upper_bound { result ≤ 3 }
{
    turns_for((ring_place(z) + 4 - ring_place(y)) % 4)
}

// The group of line bits that leads from a reference to a state, by the mode's column.
fn group_in(c: u8, reference: u8, s: u8) -> u8
    requires { c ≤ 4 }
    ensures { result ≡ group c (face c reference) s }
{
    let turn = (s % 8 + 8 - reference % 8) % 8;
    if c <= 1 {
        return row4(turn / 2) as u8;
    }
    if c == 2 {
        return row8(turn) as u8;
    }
    let row = row16(reference / 4 % 4, s / 4 % 4);
    if c == 3 {
        return row;
    }
    4 * row + s % 4
}

pub fn group_of(mode: u8, reference: u8, s: u8) -> u8
    ensures { result ≡ group mode (face mode reference) s }
{
    group_in(line::column_of(mode), reference, s)
}

// The index of the row that leads from a reference to a state: the turns of 45° between them, or both quadrants.
fn row_index(c: u8, reference: u8, s: u8) -> usize
    requires { c ≤ 4 }
    ensures value { result ≡ row_index c reference s }
    ensures upper_bound { result < 16 }
{
    if c <= 2 {
        ((s % 8 + 8 - reference % 8) % 8) as usize
    } else {
        (4 * (reference / 4 % 4) + s / 4 % 4) as usize
    }
}

// What Q1 Q2 count in a group, which in mode 4 stand before Q3 Q4.
fn row_unit(c: u8) -> u8
    requires { c ≤ 4 }
    ensures { result ≡ row_unit c }
{
    if c <= 3 { 1 } else { 4 }
}

// The row at an index. Modes 3 and 4 are one product: of two cases the compiler makes the rows of 001's table 1 constants, and these
// are not to stand in the image.
fn row_at(c: u8, i: usize) -> u8
    requires { c ≤ 4 }
    ensures { result ≡ row_at c i }
{
    if c <= 1 {
        row4((i % 8 / 2) as u8) as u8
    } else if c == 2 {
        row8((i % 8) as u8) as u8
    } else {
        row_unit(c) * row16((i / 4 % 4) as u8, (i % 4) as u8)
    }
}

// The group of a row and a state: in mode 4 with Q3 Q4.
fn with_row(c: u8, row: u8, s: u8) -> u8
    requires { c ≤ 4 }
    ensures { result ≡ with_row c row s }
{
    if c <= 3 { row } else { row / 4 % 4 * 4 + s % 4 }
}

// All rows of a column, one by one: of a loop the compiler would write them through pointers, byte by byte, and copy them.
fn rows_in(c: u8) -> [u8; 16]
    requires { c ≤ 4 }
    ensures { Rows c result }
{
    [
        row_at(c, 0),
        row_at(c, 1),
        row_at(c, 2),
        row_at(c, 3),
        row_at(c, 4),
        row_at(c, 5),
        row_at(c, 6),
        row_at(c, 7),
        row_at(c, 8),
        row_at(c, 9),
        row_at(c, 10),
        row_at(c, 11),
        row_at(c, 12),
        row_at(c, 13),
        row_at(c, 14),
        row_at(c, 15),
    ]
}

// All rows of a mode, found once for a caller that looks up many.
pub fn rows_of(mode: u8) -> [u8; 16]
    ensures { Rows mode result }
{
    rows_in(line::column_of(mode))
}

// The group by the rows of its mode, which the law `looked_up` asks for.
pub fn group_by(mode: u8, rows: &[u8; 16], reference: u8, s: u8) -> u8
    ensures { result ≡ with_row mode (get_or rows.now (row_index mode reference s) 0) s }
{
    let c = line::column_of(mode);
    with_row(c, rows[row_index(c, reference, s)], s)
}
