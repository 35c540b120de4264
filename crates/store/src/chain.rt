// An accepted store, and the records of its chain one after the other.
ghost use Rattle.std.specs.Prelude.{◌≡◌, ◌<◌, MatchResult, get_or};
ghost use Rattle.std.specs.Iterator.{YieldsFirstRef, item_count};
ghost use Rattle.line.specs.Refusal.{number};
ghost use Rattle.store.specs.Store.{refusal, total};
ghost use Rattle.store.specs.Records.{records};

use super::{TOTAL_AT, inspect, next_of, record_at};
use line::Refusal;
use octets::{get8, get32};
use std::marker::Model;

// An accepted store: `open` has looked through it.
#[derive(Clone, Copy)]
pub struct Track<'a> {
    pub bytes: &'a [u8],
    pub ghost accepted: { refusal bytes.now ≡ 0 },
    pub ghost total_fits: { total bytes.now < 4294967296 },
}

// The records that are left of an accepted store's chain, each of 32 bytes.
#[derive(Drop)]
pub struct ChainRecords<'a> {
    bytes: &'a [u8],
    index: usize,
}

impl<'a> Model for ChainRecords<'a> {
    ghost use Rattle.std.specs.Prelude.{List, ℕ};
    ghost use Rattle.store.specs.Records.{records_from, OnChain};

    ghost Value = { List (List ℕ) };

    ghost view = { λ r. records_from r.bytes.now r.index };

    ghost invariant = { λ r. OnChain r.bytes.now r.index };
}

impl<'a> Iterator for ChainRecords<'a> {
    type Item = &'a [u8];

    ghost next_gives = { YieldsFirstRef (λ rest. rest) };

    ghost remaining = { item_count (λ rest. rest) };

    fn next(&mut self) -> Option<&'a [u8]> {
        let i = self.index;
        if i == 0 {
            return None;
        }
        self.index = next_of(self.bytes, i);
        Some(record_at(self.bytes, i))
    }
}

// The store with its numbers, 11 to 15, looked at; or what refuses it.
pub fn open(store: &[u8]) -> Result<Track<'_>, Refusal>
    ensures { MatchResult result (λ t. t.bytes.now ≡ store.now) (λ e. number e ≡ refusal store.now) }
{
    inspect(store)?;
    Ok(Track { bytes: store })
}

impl<'a> Track<'a> {
    // The chain's records, in order.
    pub fn records(self) -> ChainRecords<'a>
        ensures { result ≡ records self.entry.bytes.now }
    {
        ChainRecords {
            bytes: self.bytes,
            index: next_of(self.bytes, 0),
        }
    }

    pub fn mode(self) -> u8
        ensures { result ≡ get_or self.entry.bytes.now 4 0 }
    {
        get8(self.bytes, 4) as u8
    }

    pub fn role(self) -> u8
        ensures { result ≡ get_or self.entry.bytes.now 5 0 }
    {
        get8(self.bytes, 5) as u8
    }

    // The total intervals, as record 0 has them.
    pub fn total(self) -> u32
        ensures { result ≡ total self.entry.bytes.now }
    {
        get32(self.bytes, TOTAL_AT) as u32
    }
}
