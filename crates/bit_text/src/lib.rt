// Bits given as text: the characters 0 and 1, with blanks and line ends between them.
#![tactic(auto)]

ghost use Rattle.std.specs.Prelude.{◌≡◌, length};
ghost use Rattle.bit_text.specs.BitText.{is_blank, is_digit, text_answer, text_bytes, TextTold};

use line::Refusal;

// How many bits a text gave, and whether it was read to its end: of one that a character ended, the bits before it.
#[derive(Clone, Copy)]
pub struct TextBits {
    pub count: usize,
    pub whole: bool,
}

// Whether a character is a blank or a line end.
#[tactic(auto, unfolding(crate::specs::BitText::is_blank))]
fn is_blank(c: u8) -> bool
    ensures { result ≡ is_blank c }
{
    matches!(c, b' ' | b'\t' | b'\n' | b'\r')
}

// Whether a character stands for a bit.
#[tactic(auto, unfolding(crate::specs::BitText::is_digit))]
fn is_digit(c: u8) -> bool
    ensures { result ≡ is_digit c }
{
    matches!(c, b'0' | b'1')
}

// The bits of a text, one in a byte, into the front of `out`.
pub fn take_bits(input: &[u8], out: &mut [u8]) -> Result<TextBits, Refusal>
    ensures value { result ≡ text_answer input.now (length out.old) }
    ensures out_after { out.new ≡ text_bytes input.now out.old }
    ensures text_told { TextTold input.now (length out.old) result }
{
    if out.len() < input.len() {
        return Err(Refusal::Lent);
    }
    let mut n = 0;
    for c in input {
        if is_digit(*c) {
            out[n] = *c - b'0';
            n += 1;
        } else if !is_blank(*c) {
            return Ok(TextBits {
                count: n,
                whole: false,
            });
        }
    }
    Ok(TextBits {
        count: n,
        whole: true,
    })
}
