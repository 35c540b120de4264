// Refusals as bare numbers, any of 0 to 255: 0 is none. For callers whose numbers are not those of the list; the calls here go by `Refusal`.
ghost use Rattle.std.specs.Prelude.{◌≡◌};
ghost use Rattle.line.specs.Refusal.{or_next};

// The number of a need that is not met, else the rest.
pub fn need(met: bool, number: u8, rest: u8) -> u8
    ensures { result ≡ Rattle.line.specs.Refusal.need met number rest }
{
    if met { rest } else { number }
}

// The first of two refusals.
pub fn or_next(a: u8, b: u8) -> u8
    ensures { result ≡ or_next a b }
{
    if a == 0 {
        return b;
    }
    a
}
