// Lists the track store that stands on standard input: document 01, "Listing program".
#![tactic(auto)]

ghost use Rattle.std.specs.Prelude.{◌≡◌, length, take};
ghost use Rattle.std.specs.Counts.{IsPrefixLen};
ghost use Rattle.listing.specs.Text.{text};

use console::Stop;
use std::io::{Print, Read};

// Puts the listing of the store that the first n bytes of `input` are at the start of `out`; its length.
fn list_first(input: &[u8], n: usize, out: &mut [u8; 372645]) -> usize
    requires { IsPrefixLen n input.now }
    ensures { (result ≡ length (text (take n input.now))) × (take result out.new ≡ text (take n input.now)) × IsPrefixLen result out.new }
{
    listing::list(&input[..n], out).unwrap_or(0)
}

// Writes the listing of a store, whose last line says so where the store is refused. A store has at most 65,536 bytes. One byte more is kept, so
// that a longer input is refused for its size, as the whole of it would be (`TooLong` of listing/specs/Laws).
fn list_store<R: Read>(rt: &impl Print, input: &mut R) -> Result<(), Stop> {
    let mut bytes = [0u8; 65537];
    let n = console::read_kept(input, &mut bytes)?;
    let mut out = [0u8; 372645];
    let count = list_first(&bytes, n, &mut out);
    console::emit(rt, &out[..count])?;
    store::inspect(&bytes[..n])?;
    Ok(())
}

fn main(rt: HostRuntime) {
    console::tell(&rt, list_store(&rt, &mut rt.stdin()));
}
