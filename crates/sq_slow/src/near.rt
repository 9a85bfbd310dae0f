//! The matches of a proximity expression, by trying every choice of one match of each part.
ghost use Rattle.std.specs.Prelude.{◌≡◌, ◌∷◌, ◌++◌, map, IfOk, OnOk};
ghost use Rattle.std.specs.List.{reduce};
ghost use Rattle.sq_model.specs.Lists.{joined};
ghost use Rattle.sq_model.specs.Triples.{join, choices, rises, is_near, near};

use sq_base::List;
use sq_model::Triple;
use std::alloc::{AllocError, Global};

pub fn add_all(all: &mut List<Triple>, more: &[Triple]) -> Result<(), AllocError>
    ensures { OnOk result (all.new ≡ all.old ++ more.now) }
{
    for triple in more {
        all.push(*triple)?;
    }
    Ok(())
}

fn with_first(alloc: Global, first: Triple, rest: &[Triple]) -> Result<List<Triple>, AllocError>
    ensures { IfOk result (λ chosen. chosen ≡ first ∷ rest.now) }
{
    let mut chosen = List::new(alloc);
    chosen.push(first)?;
    add_all(&mut chosen, rest)?;
    Ok(chosen)
}

fn add_choices(
    alloc: Global,
    all: &mut List<List<Triple>>,
    first: Triple,
    rests: &[List<Triple>],
) -> Result<(), AllocError>
    ensures { OnOk result (all.new ≡ all.old ++ map (λ chosen. first ∷ chosen) rests.now) }
{
    for rest in rests {
        all.push(with_first(alloc, first, rest.as_slice())?)?;
    }
    Ok(())
}

pub fn choices(alloc: Global, lists: &[List<Triple>]) -> Result<List<List<Triple>>, AllocError>
    ensures { IfOk result (λ all. all ≡ choices lists.now) }
{
    let mut all = List::new(alloc);
    match lists {
        [] => {
            all.push(List::new(alloc))?;
            Ok(all)
        }
        [firsts, more @ ..] => {
            let all_rests = choices(alloc, more)?;
            let rests = all_rests.as_slice();
            for first in firsts.as_slice() {
                add_choices(alloc, &mut all, *first, rests)?;
            }
            Ok(all)
        }
    }
}

pub fn rises(chosen: &[Triple]) -> bool
    ensures { result ≡ rises chosen.now }
{
    match chosen {
        [] => true,
        [s, rest @ ..] => match rest {
            [] => true,
            [t, ..] => s.last < t.first && rises(rest),
        },
    }
}

/// Gives up, as for want of memory, where the weight passes 64 bits.
pub fn join(s: Triple, t: Triple) -> Result<Triple, AllocError>
    ensures { IfOk result (λ whole. whole ≡ join s t) }
{
    let Some(weight) = s.weight.checked_add(t.weight) else {
        return Err(AllocError);
    };
    Ok(Triple {
        first: s.first.min(t.first),
        last: s.last.max(t.last),
        weight,
    })
}

pub fn join_all(chosen: &[Triple]) -> Result<Option<Triple>, AllocError>
    ensures { IfOk result (λ whole. whole ≡ reduce join chosen.now) }
{
    match chosen {
        [] => Ok(None),
        [first, rest @ ..] => {
            let mut whole = *first;
            for t in rest {
                whole = join(whole, *t)?;
            }
            Ok(Some(whole))
        }
    }
}

pub fn is_near(n: u32, s: Triple) -> bool
    ensures { result ≡ is_near n s }
{
    match (n as u64).checked_add(s.weight) {
        Some(room) => s.last.saturating_sub(s.first) < room,
        None => true,
    }
}

pub fn near(
    alloc: Global,
    n: u32,
    ordered: bool,
    parts: &[List<Triple>],
) -> Result<List<Triple>, AllocError>
    ensures { IfOk result (λ found. found ≡ near n ordered parts.now) }
{
    let mut found = List::new(alloc);
    let all = choices(alloc, parts)?;
    for chosen in all.as_slice() {
        let chosen = chosen.as_slice();
        if !ordered || rises(chosen) {
            if let Some(whole) = join_all(chosen)? {
                if is_near(n, whole) {
                    found.push(whole)?;
                }
            }
        }
    }
    Ok(found)
}

pub fn join_lists(alloc: Global, lists: &[List<Triple>]) -> Result<List<Triple>, AllocError>
    ensures { IfOk result (λ all. all ≡ joined lists.now) }
{
    let mut all = List::new(alloc);
    for list in lists {
        add_all(&mut all, list.as_slice())?;
    }
    Ok(all)
}
