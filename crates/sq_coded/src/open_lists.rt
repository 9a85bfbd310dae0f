ghost use Rattle.std.specs.Prelude.{◌≡◌, ℕ, ◌+◌, ◌<◌, ◌≤◌, true, ◌++◌, ◌∷◌, [], length, slice_set, slice_index_or, OnOk, OnErr, IfOk};
ghost use Rattle.sq_pool.specs.Pool.{IsLive, words_of, OthersStay};
ghost use Rattle.sq_coded.specs.Coded.{coded, is_list, is_small, may_follow};
ghost use Rattle.sq_coded.specs.Kept.{IsOpen, AreOpen, AreCoded, lists_of, postings_of, postings_in};

use crate::block::Block;
use crate::lists::Lists;
use crate::posting::Posting;
use sq_base::{MOST_CORPUS_BYTES, MOST_ITEMS, MOST_VALUES};
use sq_pool::{Chain, Pool};
use std::alloc::{AllocError, Global};
use std::marker::Model;

/// The words of a list are fewer, so that a place among them has 32 bits.
const LIST_WORDS: u64 = 4_294_967_296;

/// Lists of postings that grow. The whole blocks of each are coded in a chain of one pool.
#[derive(Drop)]
pub struct OpenLists {
    alloc: Global,
    pool: Pool,
    chains: Vec<Chain>,
    blocks: Vec<Block>,
}

impl Model for OpenLists {
    ghost use Rattle.std.specs.Prelude.{List};
    ghost use Rattle.sq_coded.specs.declared.posting.Posting.{Posting};

    ghost Value = { List (List Posting) };

    ghost use Rattle.sq_coded.specs.Kept.{lists_of, AreOpen};

    ghost view = { λ lists. lists_of lists.pool lists.chains.items lists.blocks.items };

    ghost invariant = { λ lists. AreOpen lists.pool lists.chains.items lists.blocks.items };
}

/// Whether the posting is within the limits.
fn is_small(posting: Posting) -> bool
    ensures { result ≡ is_small posting }
{
    posting.row < MOST_ITEMS && posting.ordinal < MOST_VALUES && posting.place < MOST_CORPUS_BYTES
}

/// Codes the open block into the chain. After `AllocError` both are as before.
fn flush(pool: &mut Pool, chain: &mut Chain, block: &mut Block) -> Result<(), AllocError>
    requires live { IsLive pool.old chain.old }
    requires kept { IsOpen (words_of pool.old chain.old) block.old }
    ensures chain { chain.new ≡ chain.old }
    ensures live { OnOk result (IsLive pool.new chain.old) }
    ensures others { OnOk result (OthersStay pool.old pool.new chain.old) }
    ensures words { OnOk result (words_of pool.new chain.old ≡ coded (postings_of pool.old chain.old ++ block.old)) }
    ensures block { OnOk result (block.new ≡ []) }
    ensures err_pool { OnErr result (pool.new ≡ pool.old) }
    ensures err_block { OnErr result (block.new ≡ block.old) }
{
    if block.is_empty() {
        return Ok(());
    }
    let words = block.words()?;
    if pool.len(chain) as u64 + words.len() as u64 >= LIST_WORDS {
        return Err(AllocError);
    }
    pool.append(chain, &words)?;
    block.clear();
    Ok(())
}

/// Adds a posting at the end of a list. After `AllocError` the list is as before.
fn add(
    pool: &mut Pool,
    chain: &mut Chain,
    block: &mut Block,
    posting: Posting,
) -> Result<(), AllocError>
    requires live { IsLive pool.old chain.old }
    requires kept { IsOpen (words_of pool.old chain.old) block.old }
    requires list { is_list ((postings_of pool.old chain.old ++ block.old) ++ posting ∷ []) ≡ true }
    ensures chain { chain.new ≡ chain.old }
    ensures live { IsLive pool.new chain.old }
    ensures others { OthersStay pool.old pool.new chain.old }
    ensures kept { IsOpen (words_of pool.new chain.old) block.new }
    ensures ok { OnOk result (postings_of pool.new chain.old ++ block.new ≡ (postings_of pool.old chain.old ++ block.old) ++ posting ∷ []) }
    ensures err { OnErr result (postings_of pool.new chain.old ++ block.new ≡ postings_of pool.old chain.old ++ block.old) }
{
    if block.is_full() {
        flush(pool, chain, block)?;
        block.push(posting)?;
        return Ok(());
    }
    block.push(posting)?;
    Ok(())
}

/// Makes an empty block for a list to come, if there is none yet.
fn prepare(blocks: &mut Vec<Block>, lists: usize, alloc: Global) -> Result<(), AllocError>
    requires { lists ≤ length blocks.old.items }
    ensures longer { length blocks.old.items ≤ length blocks.new.items }
    ensures same { (i : ℕ) → slice_index_or blocks.new.items i [] ≡ slice_index_or blocks.old.items i [] }
    ensures ok { OnOk result (lists < length blocks.new.items) }
{
    if lists < blocks.len() {
        return Ok(());
    }
    blocks.push(Block::new(alloc))?;
    Ok(())
}

/// Codes each open block into its chain.
fn flush_all(
    pool: &mut Pool,
    chains: &mut Vec<Chain>,
    blocks: &mut Vec<Block>,
) -> Result<(), AllocError>
    requires { AreOpen pool.old chains.old.items blocks.old.items }
    ensures coded { OnOk result (AreCoded pool.new chains.new.items) }
    ensures same { OnOk result (postings_in pool.new chains.new.items ≡ lists_of pool.old chains.old.items blocks.old.items) }
{
    for list in 0..chains.len() {
        flush(pool, &mut chains[list], &mut blocks[list])?;
    }
    Ok(())
}

impl OpenLists {
    /// No lists.
    pub fn new(alloc: Global) -> OpenLists
        ensures { result ≡ [] }
    {
        OpenLists {
            alloc,
            pool: Pool::new(alloc),
            chains: Vec::new(alloc),
            blocks: Vec::new(alloc),
        }
    }

    /// How many lists there are.
    pub fn len(&self) -> usize
        ensures { result ≡ length self.now }
    {
        self.chains.len()
    }

    /// Begins a list without postings. After `AllocError` the lists are as before.
    pub fn start(&mut self) -> Result<(), AllocError>
        ensures ok { OnOk result (self.new ≡ self.old ++ [] ∷ []) }
        ensures err { OnErr result (self.new ≡ self.old) }
    {
        prepare(&mut self.blocks, self.chains.len(), self.alloc)?;
        let chain = self.pool.chain()?;
        self.chains.push(chain)?;
        Ok(())
    }

    /// Adds a posting at the end of a list, behind whose last it comes. It is refused past the limits
    /// of the code, and then the lists are as before, as they are where memory runs out.
    pub fn push(&mut self, list: usize, posting: Posting) -> Result<(), AllocError>
        requires list { list < length self.old }
        requires order { may_follow (slice_index_or self.old list []) posting ≡ true }
        ensures ok { OnOk result (self.new ≡ slice_set self.old list (slice_index_or self.old list [] ++ posting ∷ [])) }
        ensures err { OnErr result (self.new ≡ self.old) }
    {
        if !is_small(posting) {
            return Err(AllocError);
        }
        add(
            &mut self.pool,
            &mut self.chains[list],
            &mut self.blocks[list],
            posting,
        )?;
        Ok(())
    }

    /// The lists, which grow no more.
    pub fn seal(self) -> Result<Lists, AllocError>
        ensures { IfOk result (λ lists. lists ≡ self) }
    {
        let OpenLists {
            mut pool,
            mut chains,
            mut blocks,
            ..
        } = self;
        flush_all(&mut pool, &mut chains, &mut blocks)?;
        Ok(Lists { pool, chains })
    }
}
