// The text of the command `check`: a line for each whole block of V.41 in some bits, one in a byte.
#![tactic(auto)]

ghost use Rattle.std.specs.Prelude.{◌≡◌, ◌+◌, ◌*◌, ◌/◌, ◌<◌, ◌≤◌, length};
ghost use Rattle.std.proofs.lemmas.List.Edits.{sets};
ghost use Rattle.line.specs.Refusal.{numbered};
ghost use Rattle.verdicts.specs.Verdicts.{verdict, line, text, text_lines, lines_refusal, lines_answer, lines_bytes, LinesTold};

use line::Refusal;

// The length of the text, and how many bits the blocks have that it tells of.
#[derive(Clone, Copy)]
pub struct Lines {
    pub written: usize,
    pub taken: usize,
}

// What is wrong with the call. No product and no sum is formed here: they could overflow.
#[tactic(auto, unfolding(crate::specs::Verdicts::lines_refusal, v41::specs::Block::bits_refusal))]
fn lines_fault(size: usize, place: u64, input: &[u8], lent: usize) -> Result<(), Refusal>
    ensures { numbered result ≡ lines_refusal size place input.now lent }
{
    line::need(v41::size_ok(size), Refusal::BlockSize)?;
    line::need(bits::are_bits(input), Refusal::Bit)?;
    let room = input.len() / size <= lent / 28;
    let counted = place <= u64::MAX - (input.len() as u64);
    line::need(room & counted, Refusal::Lent)
}

// Some words; the place behind them.
fn put_words(out: &mut [u8], at: usize, words: &[u8]) -> usize
    requires { at + length words.now ≤ length out.old }
    ensures { (out.new ≡ sets out.old at words.now) × (result ≡ at + length words.now) }
{
    octets::put_all(out, at, words);
    at + words.len()
}

// The word for a block; the place behind it.
fn put_verdict(out: &mut [u8], at: usize, block: &[u8]) -> usize
    requires { at + 8 ≤ length out.old }
    ensures { (out.new ≡ sets out.old at (verdict block.now)) × (result ≡ at + length (verdict block.now)) × (result ≤ at + 8) }
{
    if v41::check(block).unwrap_or(false) {
        put_words(out, at, b" whole\n")
    } else {
        put_words(out, at, b" broken\n")
    }
}

// The line of a block whose first bit has this place; the place behind it in `out`.
fn put_line(place: u64, block: &[u8], out: &mut [u8], at: usize) -> usize
    requires { at + 28 ≤ length out.old }
    ensures { (out.new ≡ sets out.old at (line place block.now)) × (result ≡ at + length (line place block.now)) × (result ≤ at + 28) }
{
    let mut digits = [0u8; 20];
    let k = io::decimal(place, &mut digits);
    let p = put_words(out, at, &digits[..k]);
    put_verdict(out, p, block)
}

// The lines of the whole blocks.
fn put_lines(size: usize, place: u64, input: &[u8], out: &mut [u8]) -> Lines
    requires { (0 < size) × (28 * (length input.now / size) ≤ length out.old) × (place + length input.now ≤ 18446744073709551615) }
    ensures { (result ≡ text_lines size place input.now) × (out.new ≡ sets out.old 0 (text size place input.now)) }
{
    let mut at = 0;
    let mut first = place;
    for block in input.chunks_exact(size) {
        at = put_line(first, block, out, at);
        first += size as u64;
    }
    let taken = input.len() / size * size;
    Lines { written: at, taken }
}

// Checks the whole blocks of some bits, the first of which has this place, and writes a line for each into the front of `out`.
pub fn check_blocks(size: usize, place: u64, input: &[u8], out: &mut [u8]) -> Result<Lines, Refusal>
    ensures value { result ≡ lines_answer size place input.now (length out.old) }
    ensures out_after { out.new ≡ lines_bytes size place input.now out.old }
    ensures lines_told { LinesTold size place input.now (length out.old) result }
{
    lines_fault(size, place, input, out.len())?;
    Ok(put_lines(size, place, input, out))
}
