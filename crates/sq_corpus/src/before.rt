ghost use Rattle.std.specs.Prelude.{◌≡◌, OnOk};
ghost use Rattle.sq_corpus.specs.Lines as spec;

use crate::words::LineKind;
use sq_base::{List, Text};
use sq_model::{Caller, Item};
use sq_schema::Property;
use std::alloc::AllocError;

/// Which lines may come next.
#[derive(Clone, Copy, Debug, PartialEq, Eq)]
pub(crate) enum Stage {
    /// The first line.
    Start,
    /// A property, a caller or an item.
    InProperties,
    /// A caller or an item.
    InCallers,
    /// The allow line of an item.
    BeforeAllow,
    /// The deny line of an item.
    BeforeDeny,
    /// A value or the next item.
    InValues,
}

/// What the lines before one say.
#[derive(Drop)]
pub(crate) struct Before {
    pub(crate) stage: Stage,
    pub(crate) rows: List<Property>,
    pub(crate) callers: List<Caller>,
    /// The items that are read whole.
    pub(crate) items: List<Item>,
    /// The last item, as far as it is read.
    pub(crate) item: Option<Item>,
}

impl Before {
    /// Whether the number is above that of the item before, if there is one.
    pub(crate) fn is_above(&self, number: u32) -> bool
        ensures { result ≡ spec.is_above self.now.item number }
    {
        match &self.item {
            Some(item) => item.number < number,
            None => true,
        }
    }
}

/// Whether such a line may stand there.
pub(crate) fn may_stand(stage: Stage, kind: LineKind) -> bool
    ensures { result ≡ spec.may_stand stage kind }
{
    match stage {
        Stage::Start => matches!(kind, LineKind::Heading),
        Stage::InProperties => matches!(
            kind,
            LineKind::PropertyRow | LineKind::CallerRow | LineKind::ItemHead
        ),
        Stage::InCallers => matches!(kind, LineKind::CallerRow | LineKind::ItemHead),
        Stage::BeforeAllow => matches!(kind, LineKind::AllowList),
        Stage::BeforeDeny => matches!(kind, LineKind::DenyList),
        Stage::InValues => matches!(kind, LineKind::ValueRow | LineKind::ItemHead),
    }
}

// The item, whose list of values has no room to spare.
fn without_spare(item: Item) -> Item
    ensures { result ≡ item }
{
    let Item {
        number,
        rank,
        url,
        allow,
        deny,
        values,
    } = item;
    let mut values = values.into_vec();
    values.shrink_to_fit();
    Item {
        number,
        rank,
        url,
        allow,
        deny,
        values: List::from_vec(values),
    }
}

/// Puts the item that is read to the others.
pub(crate) fn close(before: &mut Before) -> Result<(), AllocError>
    ensures { OnOk result (before.new ≡ spec.closed before.old) }
{
    if let Some(item) = before.item.take() {
        before.items.push(without_spare(item))?;
    }
    Ok(())
}

/// Gives the item that is read its allow list.
pub(crate) fn set_allow(before: &mut Before, claims: List<Text>)
    ensures { before.new ≡ spec.allowed before.old claims }
{
    before.stage = Stage::BeforeDeny;
    if let Some(item) = &mut before.item {
        item.allow = claims;
    }
}

/// Gives the item that is read its deny list.
pub(crate) fn set_deny(before: &mut Before, claims: List<Text>)
    ensures { before.new ≡ spec.denied before.old claims }
{
    before.stage = Stage::InValues;
    if let Some(item) = &mut before.item {
        item.deny = claims;
    }
}
