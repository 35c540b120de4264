// Numbers in bytes, little-endian, and runs of bytes. Every function is total: a byte past the end reads as 0 and is not written.
#![tactic(auto)]

ghost use Rattle.std.specs.Prelude.{◌≡◌, [], ◌∷◌, ◌<◌, min, length, drop, get_or, replicate};
ghost use Rattle.std.proofs.lemmas.List.Edits.{sets};
ghost use Rattle.octets.specs.Number.{u16, u32, le16, le32, pattern, signed, i16, zeros};

pub fn get8(s: &[u8], at: usize) -> usize
    ensures { (result ≡ get_or s.now at 0) × (result < 256) }
{
    usize::from(s.get(at).copied().unwrap_or(0))
}

// A number is read and written by its bytes and halves, since the bytes may end inside it: std's `from_le_bytes` takes a whole array.
pub fn get16(s: &[u8], at: usize) -> usize
    ensures { (result ≡ u16 s.now at) × (result < 65536) }
{
    if at < s.len() {
        get8(s, at) + 256 * get8(s, at + 1)
    } else {
        0
    }
}

pub fn get32(s: &[u8], at: usize) -> usize
    ensures { (result ≡ u32 s.now at) × (result < 4294967296) }
{
    if at < s.len() {
        get16(s, at) + 65536 * get16(s, at + 2)
    } else {
        0
    }
}

// By the index: of a write through `get_mut` no fact comes back.
pub fn put8(s: &mut [u8], at: usize, v: u8)
    ensures { s.new ≡ sets s.old at (v ∷ []) }
{
    if at < s.len() {
        s[at] = v;
    }
}

// The two bytes as `le16` has them: for `to_le_bytes` the number would first be cut to 16 bits.
pub fn put16(s: &mut [u8], at: usize, v: usize)
    ensures { s.new ≡ sets s.old at (le16 v) }
{
    if at < s.len() {
        put8(s, at, (v % 256) as u8);
        put8(s, at + 1, (v / 256 % 256) as u8);
    }
}

pub fn put32(s: &mut [u8], at: usize, v: usize)
    ensures { s.new ≡ sets s.old at (le32 v) }
{
    if at < s.len() {
        put16(s, at, v % 65536);
        put16(s, at + 2, v / 65536);
    }
}

// A signed number as two's complement in 16 bits, and back.
pub fn pattern_of(x: i16) -> usize
    ensures { (result ≡ pattern x) × (result < 65536) }
{
    usize::from(x.cast_unsigned())
}

pub fn signed_of(u: u16) -> i16
    ensures { result ≡ signed u }
{
    u.cast_signed()
}

pub fn get_i16(s: &[u8], at: usize) -> i16
    ensures { result ≡ i16 s.now at }
{
    signed_of(get16(s, at) as u16)
}

// Whether the bytes of `s` from `at` on are zero. Every byte is looked at, so that many are compared at once. (Why the loop is its own: `line::all_in_range`.)
pub fn zero_from(s: &[u8], at: usize) -> bool
    ensures { result ≡ zeros (drop at s.now) }
{
    let mut clear = true;
    if let Some(rest) = s.get(at..) {
        for x in rest {
            clear &= *x == 0;
        }
    }
    clear
}

pub fn clear(s: &mut [u8])
    ensures { s.new ≡ replicate (length s.old) 0 }
{
    s.fill(0);
}

// The bytes of `r` into `s` from `at` on. Byte by byte: for `copy_from_slice` the library for C would need `memcpy` and `memmove` of its
// caller, which it does not otherwise.
pub fn put_all(s: &mut [u8], at: usize, r: &[u8])
    ensures { s.new ≡ sets s.old at r.now }
{
    if at < s.len() {
        let n = r.len().min(s.len() - at);
        for k in 0..n {
            s[at + k] = r[k];
        }
    }
}
