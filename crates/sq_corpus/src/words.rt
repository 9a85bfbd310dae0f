ghost use Rattle.std.specs.Prelude.{◌≡◌};
ghost use Rattle.sq_corpus.specs.Words as spec;

use sq_schema::Kind;

/// What a line is, by its first field.
#[derive(Clone, Copy, Debug, PartialEq, Eq)]
pub(crate) enum LineKind {
    Heading,
    PropertyRow,
    CallerRow,
    ItemHead,
    AllowList,
    DenyList,
    ValueRow,
    Unknown,
}

/// The flags of a property.
#[derive(Clone, Copy, Debug, PartialEq, Eq)]
pub(crate) struct Flags {
    pub(crate) searchable: bool,
    pub(crate) multi: bool,
    pub(crate) refinable: bool,
}

#[tactic(auto, unfolding(crate::specs::Words::line_kind))]
pub(crate) fn line_kind(word: &str) -> LineKind
    ensures { result ≡ spec.line_kind word.now }
{
    if word == "SQCORPUS 1" {
        LineKind::Heading
    } else if word == "property" {
        LineKind::PropertyRow
    } else if word == "caller" {
        LineKind::CallerRow
    } else if word == "item" {
        LineKind::ItemHead
    } else if word == "allow" {
        LineKind::AllowList
    } else if word == "deny" {
        LineKind::DenyList
    } else if word == "value" {
        LineKind::ValueRow
    } else {
        LineKind::Unknown
    }
}

#[tactic(auto, unfolding(crate::specs::Words::kind_of))]
pub(crate) fn kind_of(word: &str) -> Option<Kind>
    ensures { result ≡ spec.kind_of word.now }
{
    if word == "text" {
        Some(Kind::Text)
    } else if word == "integer" {
        Some(Kind::Integer)
    } else if word == "datetime" {
        Some(Kind::DateTime)
    } else if word == "yesno" {
        Some(Kind::YesNo)
    } else {
        None
    }
}

fn make_flags(searchable: bool, multi: bool, refinable: bool) -> Flags
    ensures { result ≡ spec.flags searchable multi refinable }
{
    Flags {
        searchable,
        multi,
        refinable,
    }
}

/// The flags that a dash, or one or more of `s`, `m` and `r` in this order, say.
#[tactic(auto, unfolding(crate::specs::Words::flags_of))]
pub(crate) fn flags_of(word: &str) -> Option<Flags>
    ensures { result ≡ spec.flags_of word.now }
{
    if word == "-" {
        Some(make_flags(false, false, false))
    } else if word == "s" {
        Some(make_flags(true, false, false))
    } else if word == "m" {
        Some(make_flags(false, true, false))
    } else if word == "r" {
        Some(make_flags(false, false, true))
    } else if word == "sm" {
        Some(make_flags(true, true, false))
    } else if word == "sr" {
        Some(make_flags(true, false, true))
    } else if word == "mr" {
        Some(make_flags(false, true, true))
    } else if word == "smr" {
        Some(make_flags(true, true, true))
    } else {
        None
    }
}
