// Bits from an input, given as the characters 0 and 1.
#![tactic(auto)]

ghost use Rattle.std.specs.Prelude.{◌≡◌, IfOk, OnErr};
ghost use Rattle.bit_input.specs.Input.{BitsBehind};

use bit_text::TextBits;
use console::Stop;
use std::io::Read;

// How many characters were read and how many bits stand at the front of the buffer, whether a character that is no bit ended them, and whether
// the input has ended. Both are flags, since neither is a failure: the bits that came before count.
#[derive(Clone, Copy)]
pub struct BitsCame {
    pub characters: usize,
    pub count: usize,
    pub other: bool,
    pub ended: bool,
}

// One read into `text`, and its bits into `bits` behind the first `have`.
pub fn read_bits<R: Read>(
    input: &mut R,
    text: &mut [u8],
    bits: &mut [u8],
    have: usize,
) -> Result<BitsCame, Stop>
    ensures ok { IfOk result (λ came. BitsBehind have text.new bits.old bits.new came) }
    ensures err { OnErr result (bits.new ≡ bits.old) }
{
    let came = console::read_more(input, text, 0)?;
    let at = have.min(bits.len());
    let none = TextBits {
        count: 0,
        whole: false,
    };
    let given = bit_text::take_bits(&text[..came.count], &mut bits[at..]).unwrap_or(none);
    Ok(BitsCame {
        characters: came.count,
        count: at + given.count,
        other: !given.whole,
        ended: came.ended,
    })
}
