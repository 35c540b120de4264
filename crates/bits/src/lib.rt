// Bits, one in a byte.
#![tactic(auto)]

ghost use Rattle.std.specs.Prelude.{◌≡◌, length};
ghost use Rattle.line.specs.Table.{every};
ghost use Rattle.scrambler.specs.Bits.{is_bit, bits};

// Whether each byte is a bit. All are read, even after one that is not, so that many can be tested at once. (Why the loop is its own: `line::all_in_range`.)
#[tactic(auto, unfolding(scrambler::specs::Bits::is_bit))]
pub fn are_bits(input: &[u8]) -> bool
    ensures { result ≡ every is_bit input.now }
{
    let mut all = true;
    for x in input {
        all &= *x < 2;
    }
    all
}

// The lowest bits of a number into all the lent bytes, the highest of them first.
pub fn put_bits(out: &mut [u8], v: u32)
    ensures { out.new ≡ bits (length out.old) v }
{
    let mut rest = v;
    // by the place: of the writes through a turned `iter_mut` no fact comes back
    for k in (0..out.len()).rev() {
        out[k] = (rest % 2) as u8;
        rest /= 2;
    }
}
