ghost use Rattle.std.specs.Prelude.{◌≡◌, ◌+◌, ◌<◌, ◌^◌, true, length, slice_index_or, slice_get, []};
ghost use Rattle.sq_coded.specs.Coded.{coded, is_list};

use sq_base::Steps;
use sq_pool::{Chain, Pool};
use std::alloc::Global;
use std::marker::Model;
use std::sync::ledger::Ledger;

/// Lists of postings, each a chain of one pool.
#[derive(Drop)]
pub struct Lists {
    pub(crate) pool: Pool,
    pub(crate) chains: Vec<Chain>,
}

impl Model for Lists {
    ghost use Rattle.std.specs.Prelude.{List};
    ghost use Rattle.sq_coded.specs.declared.posting.Posting.{Posting};

    ghost Value = { List (List Posting) };

    ghost use Rattle.sq_coded.specs.Kept.{postings_in, AreCoded};

    ghost view = { λ lists. postings_in lists.pool lists.chains.items };

    ghost invariant = { λ lists. AreCoded lists.pool lists.chains.items };
}

/// How many postings a list has, by the second words of its blocks.
fn postings_of(lists: &Lists, list: usize) -> u64
    requires known { list < length lists.now }
    requires short { length (coded (slice_index_or lists.now list [])) < 2 ^ 32 }
    requires few { length (slice_index_or lists.now list []) < 2 ^ 40 }
    requires rises { is_list (slice_index_or lists.now list []) ≡ true }
    ensures { result ≡ length (slice_index_or lists.now list []) }
{
    let mut number = 0;
    let mut place = 0;
    while let Some(_last) = lists.read(list, place) {
        let size = match lists.read(list, place + 1) {
            Some(size) => size,
            None => unreachable!(),
        };
        number += (size / 65_536) as u64;
        place += 2 + size % 65_536;
    }
    number
}

impl Lists {
    /// No lists.
    pub fn new(alloc: Global) -> Lists
        ensures { result ≡ [] }
    {
        Lists {
            pool: Pool::new(alloc),
            chains: Vec::new(alloc),
        }
    }

    /// How many lists there are.
    pub fn len(&self) -> usize
        ensures { result ≡ length self.now }
    {
        self.chains.len()
    }

    /// How many postings a list has. None is decoded, and no step is counted.
    pub fn count(&self, list: usize) -> u64
        requires { list < length self.now }
        ensures value { result ≡ length (slice_index_or self.now list []) }
        ensures few { result < 2 ^ 40 }
    {
        self.tells(list);
        postings_of(self, list)
    }

    /// A word of the code of a list, `None` exactly past its end.
    pub fn word<L: Ledger>(&self, list: usize, at: u32, steps: &mut Steps<L>) -> Option<u32>
        requires { list < length self.now }
        ensures value { result ≡ slice_get (coded (slice_index_or self.now list [])) at }
        ensures counted { steps.new ≡ steps.old + 1 }
    {
        steps.tick();
        self.pool.read(&self.chains[list], at)
    }

    /// The same without a step, for readers.
    pub(crate) fn read(&self, list: usize, at: u32) -> Option<u32>
        requires { list < length self.now }
        ensures { result ≡ slice_get (coded (slice_index_or self.now list [])) at }
    {
        self.pool.read(&self.chains[list], at)
    }

    /// What readers know of a list: the places of its words have 32 bits, and it is one within the limits.
    pub(crate) fn tells(&self, list: usize)
        requires { list < length self.now }
        ensures short { length (coded (slice_index_or self.now list [])) < 2 ^ 32 }
        ensures few { length (slice_index_or self.now list []) < 2 ^ 40 }
        ensures rises { is_list (slice_index_or self.now list []) ≡ true }
    {
        let _len = self.pool.len(&self.chains[list]);
    }
}
