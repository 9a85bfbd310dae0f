ghost use Rattle.std.specs.Prelude.{◌≡◌, ◌+◌, ◌^◌, ◌<◌, nat_le, Option, Some, None, option_map};
ghost use Rattle.sq_cursor.specs.Spans.{comes_after, is_passage_before};
ghost use Rattle.sq_near.specs.Moves.{ends_like, hull_with, is_after, is_given, is_here, is_sooner, later_passage, sooner, sooner_of};
ghost use Rattle.sq_near.specs.Streams.{cover_span};

use crate::cover::Cover;

/// A cover from the beginning of the one that begins first to the end of the one that ends last.
pub(crate) fn with_part(cover: Option<Cover>, part: Cover) -> Cover
    ensures { cover_span result ≡ hull_with (option_map cover_span cover) (cover_span part) }
{
    match cover {
        Some(c) => Cover {
            row: c.row,
            part: c.part,
            first: c.first.min(part.first),
            last: c.last.max(part.last),
        },
        None => part,
    }
}

/// The later of two passages.
pub(crate) fn later(last: Option<(u32, u32)>, here: (u32, u32)) -> (u32, u32)
    ensures { result ≡ later_passage last here }
{
    match last {
        Some(p) => if p.0 < here.0 || (p.0 == here.0 && p.1 < here.1) {
            here
        } else {
            p
        },
        None => here,
    }
}

/// Whether one passage comes before another.
pub(crate) fn is_before(a: (u32, u32), b: (u32, u32)) -> bool
    ensures { result ≡ is_passage_before (a.0, a.1) (b.0, b.1) }
{
    a.0 < b.0 || (a.0 == b.0 && a.1 < b.1)
}

/// Hands out that the numbers fit: a goal names no range of a number that stands in a tuple or in a struct.
pub(crate) fn fit(_row: u32, _part: u32, _first: u32)
    ensures row { _row < 2 ^ 32 }
    ensures part { _part < 2 ^ 32 }
    ensures first { _first < 2 ^ 32 }
{}

/// Whether a part stands at a passage.
pub(crate) fn stands(here: Option<(u32, u32)>, passage: (u32, u32)) -> bool
    ensures { result ≡ is_here here passage }
{
    match here {
        Some(p) => p.0 == passage.0 && p.1 == passage.1,
        None => false,
    }
}

/// Whether the next cover ends where this one ends.
pub(crate) fn ends_with(next: Option<Cover>, cover: Cover) -> bool
    ensures { result ≡ ends_like (option_map cover_span next) (cover_span cover) }
{
    match next {
        Some(n) => n.row == cover.row && (n.part == cover.part && n.last == cover.last),
        None => false,
    }
}

/// Whether b comes after a: in a later passage, or in the same one with both ends later.
pub(crate) fn is_behind(a: Cover, b: Cover) -> bool
    ensures { result ≡ comes_after (cover_span a) (cover_span b) }
{
    (a.row < b.row || (a.row == b.row && a.part < b.part))
        || (a.row == b.row && (a.part == b.part && (a.first < b.first && a.last < b.last)))
}

/// Whether a cover comes after the one that was found before.
pub(crate) fn follows(after: Option<Cover>, cover: Cover) -> bool
    ensures { result ≡ is_after after (cover_span cover) }
{
    match after {
        Some(a) => is_behind(a, cover),
        None => true,
    }
}

/// Whether a cover is at most `width` tokens long.
pub(crate) fn is_short(width: u32, cover: Cover) -> bool
    ensures { result ≡ nat_le (cover.last + 1) (cover.first + width) }
{
    cover.last - cover.first < width
}

/// Whether a cover is a least one, and the next that is wanted.
pub(crate) fn gives(width: u32, after: Option<Cover>, next: Option<Cover>, cover: Cover) -> bool
    ensures { result ≡ is_given width after (option_map cover_span next) (cover_span cover) }
{
    follows(after, cover) && (!ends_with(next, cover) && is_short(width, cover))
}

/// Whether a ends before b, or with it and begins later: then b isn't least without a.
pub(crate) fn comes_first(a: Cover, b: Cover) -> bool
    ensures { result ≡ is_sooner (cover_span a) (cover_span b) }
{
    a.row < b.row
        || (a.row == b.row
            && (a.part < b.part
                || (a.part == b.part
                    && (a.last < b.last || (a.last == b.last && b.first < a.first)))))
}

/// Of two covers the one that comes first.
pub(crate) fn sooner_cover(a: Cover, b: Cover) -> Cover
    ensures { cover_span result ≡ sooner (cover_span a) (cover_span b) }
{
    if comes_first(b, a) { b } else { a }
}

/// The one that ends first, and of those the one that begins last.
pub(crate) fn first_of_both(first: Option<Cover>, here: Option<Cover>) -> Option<Cover>
    ensures { option_map cover_span result ≡ sooner_of (option_map cover_span first) (option_map cover_span here) }
{
    match here {
        Some(h) => match first {
            Some(f) => Some(sooner_cover(f, h)),
            None => Some(h),
        },
        None => first,
    }
}

/// The passage of what was found.
pub(crate) fn passage_of(found: Option<Cover>) -> Option<(u32, u32)>
    ensures { result ≡ option_map (λ c. (c.row, c.part)) found }
{
    match found {
        Some(c) => Some((c.row, c.part)),
        None => None,
    }
}

/// The first and the last token of what was found.
pub(crate) fn span_of(found: Option<Cover>) -> Option<(u32, u32)>
    ensures { result ≡ option_map (λ c. (c.first, c.last)) found }
{
    match found {
        Some(c) => Some((c.first, c.last)),
        None => None,
    }
}
