// Blocks of Recommendation V.41, a bit in a byte: four service bits and the information, then 16 check bits. The first bit is the
// highest power, and a whole block leaves nothing when divided by x^16 + x^12 + x^5 + 1.
#![tactic(auto)]

ghost use Rattle.std.specs.Prelude.{◌≡◌, ◌<◌, ◌≤◌, T, length};
ghost use Rattle.line.specs.Refusal.{numbered};
ghost use Rattle.line.specs.Table.{every};
ghost use Rattle.scrambler.specs.Bits.{is_bit, bits as bits_of, value};
ghost use Rattle.v41.specs.Block.{is_size, bits_refusal, check_answer, CheckTold, make_answer, make_bytes, MakeTold};
ghost use Rattle.v41.specs.Register.{next, register};

use line::Refusal;

// Whether there are blocks of n bits.
pub fn size_ok(n: usize) -> bool
    ensures { result ≡ is_size n }
{
    (n == 260) | ((n == 500) | ((n == 980) | (n == 3860)))
}

// A bit shifted into the register; where a one leaves it, the generator's lower powers are added.
fn shift(r: u32, b: u32) -> u32
    requires { (r < 65536) × (b < 2) }
    ensures { (result ≡ next r b) × (result < 65536) }
{
    let t = 2 * r + b;
    if t < 65536 {
        return t;
    }
    (t - 65536) ^ 0x1021
}

// Eight bits shifted in at once, v being their number. x^16 is x^12 + x^5 + 1: the eight that leave the register come back 12, 5 and 0
// places up, and the upper four of them leave it once more by the first of these, hence x.
fn shift_eight(r: u32, v: u32) -> u32
    requires { (r < 65536) × (v < 256) }
    ensures { (result ≡ register r (bits_of 8 v)) × (result < 65536) }
{
    let h = r / 256;
    let x = h ^ (h / 16);
    let left = (((x * 4096) ^ (x * 32)) ^ x) % 65536;
    left ^ ((r % 256) * 256 + v)
}

// The number that up to eight bits are, the first highest.
#[tactic(auto, using(crate::proofs::Loops::number_small, crate::proofs::Loops::number_end))]
fn number_of(input: &[u8]) -> u32
    requires { (length input.now ≤ 8) × T (every is_bit input.now) }
    ensures { (result ≡ value input.now) × (result < 256) }
{
    let mut v = 0;
    for b in input {
        v = 2 * v + u32::from(*b);
    }
    v
}

// The register after bits more, one by one.
#[tactic(auto, using(crate::proofs::Loops::bit_at))]
fn divide_bits(start: u32, input: &[u8]) -> u32
    requires { (start < 65536) × T (every is_bit input.now) }
    ensures { (result ≡ register start input.now) × (result < 65536) }
{
    let mut r = start;
    for b in input {
        r = shift(r, u32::from(*b));
    }
    r
}

// The register after all the bits, eight at a time: what their division leaves.
#[tactic(auto, using(crate::proofs::Loops::eights_begun, crate::proofs::Loops::eight_bits, crate::proofs::Loops::eights_end))]
fn divide(input: &[u8]) -> u32
    requires { T (every is_bit input.now) }
    ensures { (result ≡ register 0 input.now) × (result < 65536) }
{
    let eights = input.chunks_exact(8);
    let rest = eights.remainder();
    let mut r = 0;
    for eight in eights {
        r = shift_eight(r, number_of(eight));
    }
    divide_bits(r, rest)
}

// What is wrong with bits for a block of that size.
#[tactic(auto, unfolding(crate::specs::Block::bits_refusal))]
fn bits_fault(size: usize, input: &[u8]) -> Result<(), Refusal>
    ensures { numbered result ≡ bits_refusal size input.now }
{
    line::need(size_ok(size), Refusal::BlockSize)?;
    line::need(bits::are_bits(input), Refusal::Bit)
}

// Checks a block: whether it is accepted.
pub fn check(input: &[u8]) -> Result<bool, Refusal>
    ensures value { result ≡ check_answer input.now }
    ensures check_told { CheckTold input.now result }
{
    bits_fault(input.len(), input)?;
    Ok(divide(input) == 0)
}

// Makes a block of service and information bits at the front of `out`: the count of bytes written.
pub fn make(input: &[u8], out: &mut [u8]) -> Result<usize, Refusal>
    ensures value { result ≡ make_answer input.now (length out.old) }
    ensures out_after { out.new ≡ make_bytes input.now out.old }
    ensures make_told { MakeTold input.now (length out.old) result }
{
    let n = input.len();
    let e = n + 16;
    bits_fault(e, input)?;
    line::need(e <= out.len(), Refusal::Lent)?;
    let r = shift_eight(shift_eight(divide(input), 0), 0);
    octets::put_all(out, 0, input);
    bits::put_bits(&mut out[n..e], r);
    Ok(e)
}
