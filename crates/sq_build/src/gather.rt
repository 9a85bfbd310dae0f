//! Lists of postings by token, while they grow.
ghost use Rattle.std.specs.Prelude.{◌≡◌, ℕ, ◌+◌, true, [], ◌∷◌, ◌++◌, List, Some, length, map, if◌then◌else◌, IfOk, OnOk};
ghost use Rattle.std.specs.HashMap.{get_by_text};
ghost use Rattle.std.specs.Str.{bytes_eq};
ghost use Rattle.sq_coded.specs.Coded.{may_follow};
ghost use Rattle.sq_postings.specs.Occurrences.{posting, places_from};
ghost use Rattle.sq_build.specs.Gathered.{found, IsGathered, MayFollowAll, OthersStay};

use sq_coded::{OpenLists, Posting, follows_last};
use sq_tokens::Tokens;
use std::alloc::{AllocError, Global};
use std::collections::HashMap;

/// The place of a token in a passage has 32 bits.
const MOST_TOKENS: usize = 4_294_967_295;

fn number_of(ids: &HashMap<String, u32>, text: &str) -> Option<u32>
    ensures { result ≡ get_by_text ids.now text.now }
{
    ids.get(text).copied()
}

fn name(
    alloc: Global,
    ids: &mut HashMap<String, u32>,
    text: &str,
    id: u32,
) -> Result<(), AllocError>
    ensures { OnOk result ((t : List ℕ) → get_by_text ids.new t ≡ (if bytes_eq text.now t then Some id else get_by_text ids.old t)) }
{
    ids.insert(String::from_str(alloc, text)?, id)?;
    Ok(())
}

fn count(lists: &OpenLists) -> Result<u32, AllocError>
    ensures { IfOk result (λ count. count ≡ length lists.now) }
{
    match u32::try_from(lists.len()) {
        Ok(count) => Ok(count),
        Err(_) => Err(AllocError),
    }
}

/// The number of the list of a text, which is begun where there is none.
fn list_of(
    alloc: Global,
    ids: &mut HashMap<String, u32>,
    lists: &mut OpenLists,
    text: &str,
) -> Result<u32, AllocError>
    requires { IsGathered (get_by_text ids.old) (length lists.old) }
    ensures gathered { OnOk result (IsGathered (get_by_text ids.new) (length lists.new)) }
    ensures others { OnOk result (OthersStay (get_by_text ids.old) lists.old (get_by_text ids.new) lists.new) }
    ensures number { IfOk result (λ id. get_by_text ids.new text.now ≡ Some id) }
    ensures same { OnOk result ((t : List ℕ) → found (get_by_text ids.new) lists.new t ≡ found (get_by_text ids.old) lists.old t) }
{
    if let Some(id) = number_of(ids, text) {
        return Ok(id);
    }
    let id = count(lists)?;
    lists.start()?;
    name(alloc, ids, text, id)?;
    Ok(id)
}

/// Adds a posting to the list of a text.
fn add_token(
    alloc: Global,
    ids: &mut HashMap<String, u32>,
    lists: &mut OpenLists,
    text: &str,
    posting: Posting,
) -> Result<(), AllocError>
    requires gathered { IsGathered (get_by_text ids.old) (length lists.old) }
    requires order { may_follow (found (get_by_text ids.old) lists.old text.now) posting ≡ true }
    ensures gathered { OnOk result (IsGathered (get_by_text ids.new) (length lists.new)) }
    ensures others { OnOk result (OthersStay (get_by_text ids.old) lists.old (get_by_text ids.new) lists.new) }
    ensures added { OnOk result ((t : List ℕ) → found (get_by_text ids.new) lists.new t
        ≡ found (get_by_text ids.old) lists.old t ++ (if bytes_eq text.now t then posting ∷ [] else [])) }
{
    let id = list_of(alloc, ids, lists, text)?;
    lists.push(id as usize, posting)?;
    Ok(())
}

/// Adds the tokens of a passage to their lists.
pub fn add_passage(
    alloc: Global,
    ids: &mut HashMap<String, u32>,
    lists: &mut OpenLists,
    row: u32,
    ordinal: u32,
    tokens: &Tokens,
) -> Result<(), AllocError>
    requires gathered { IsGathered (get_by_text ids.old) (length lists.old) }
    requires order { MayFollowAll (get_by_text ids.old) lists.old (posting row ordinal 0) }
    ensures gathered { OnOk result (IsGathered (get_by_text ids.new) (length lists.new)) }
    ensures others { OnOk result (OthersStay (get_by_text ids.old) lists.old (get_by_text ids.new) lists.new) }
    ensures order { OnOk result (MayFollowAll (get_by_text ids.new) lists.new (posting row (ordinal + 1) 0)) }
    ensures added { OnOk result ((t : List ℕ) → found (get_by_text ids.new) lists.new t
        ≡ found (get_by_text ids.old) lists.old t ++ map (posting row ordinal) (places_from 0 t tokens.now)) }
{
    follows_last();
    if tokens.len() > MOST_TOKENS {
        return Err(AllocError);
    }
    'tokens: for place in 0..tokens.len() {
        let entry = Posting {
            row,
            ordinal,
            place: place as u32,
        };
        add_token(alloc, ids, lists, tokens.text(place), entry)?;
    }
    Ok(())
}
