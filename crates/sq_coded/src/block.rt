ghost use Rattle.std.specs.Prelude.{◌≡◌, ◌<◌, ◌≤◌, nat_le, ◌++◌, ◌∷◌, [], length, OnOk, OnErr, IfOk};
ghost use Rattle.sq_coded.specs.Coded.{block_words, block_entries};

use crate::code;
use crate::posting::Posting;
use std::alloc::{AllocError, Global};
use std::marker::Model;

/// The entries of a list that are not coded yet, at most as many as a block has.
#[derive(Drop)]
pub(crate) struct Block {
    alloc: Global,
    entries: Vec<Posting>,
}

impl Model for Block {
    ghost use Rattle.std.specs.Prelude.{List, length, ◌≤◌};
    ghost use Rattle.sq_coded.specs.Coded.{block_entries};
    ghost use Rattle.sq_coded.specs.declared.posting.Posting.{Posting};

    ghost Value = { List Posting };

    ghost view = { λ block. block.entries.items };

    ghost invariant = { λ block. length block.entries.items ≤ block_entries };
}

impl Block {
    pub(crate) fn new(alloc: Global) -> Block
        ensures { result ≡ [] }
    {
        Block {
            alloc,
            entries: Vec::new(alloc),
        }
    }

    pub(crate) fn is_empty(&self) -> bool
        ensures { result ≡ nat_le (length self.now) 0 }
    {
        self.entries.len() == 0
    }

    pub(crate) fn is_full(&self) -> bool
        ensures value { result ≡ nat_le block_entries (length self.now) }
        ensures most { length self.now ≤ block_entries }
    {
        self.entries.len() >= code::BLOCK_ENTRIES
    }

    pub(crate) fn push(&mut self, posting: Posting) -> Result<(), AllocError>
        requires { length self.old < block_entries }
        ensures ok { OnOk result (self.new ≡ self.old ++ posting ∷ []) }
        ensures err { OnErr result (self.new ≡ self.old) }
    {
        self.entries.push(posting)?;
        Ok(())
    }

    pub(crate) fn clear(&mut self)
        ensures { self.new ≡ [] }
    {
        self.entries.clear();
    }

    /// The words of the block.
    pub(crate) fn words(&self) -> Result<Vec<u32>, AllocError>
        ensures words { IfOk result (λ words. words.items ≡ block_words self.now) }
        ensures most { length self.now ≤ block_entries }
    {
        code::block_words(self.alloc, &self.entries)
    }
}
