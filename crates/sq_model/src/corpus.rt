ghost use Rattle.std.specs.Prelude.{◌≡◌};

use sq_base::{List, Text};
use sq_schema::Schema;
use std::alloc::AllocError;

/// What a value of a property is, by the property's kind.
#[derive(Debug, Drop)]
pub enum Content {
    /// Of a text property.
    Words(Text),
    /// Of an integer property.
    Number(i64),
    /// Of a property of dates: UTC seconds since 1970-01-01T00:00:00Z, in the years 0001 to 9999.
    Moment(i64),
    /// Of a yes-no property.
    Flag(bool),
}

/// A copy is equal to the content.
impl Clone for Content {
    ghost is_clone = { λ content copy. copy ≡ content };

    fn clone(&self) -> Result<Content, AllocError> {
        match self {
            Content::Words(text) => Ok(Content::Words(text.clone()?)),
            Content::Number(n) => Ok(Content::Number(*n)),
            Content::Moment(moment) => Ok(Content::Moment(*moment)),
            Content::Flag(flag) => Ok(Content::Flag(*flag)),
        }
    }
}

/// A value of the property with this row of the schema.
#[derive(Debug, Drop)]
pub struct Value {
    pub property: u32,
    pub content: Content,
}

/// A copy is equal to the value.
impl Clone for Value {
    ghost is_clone = { λ value copy. copy ≡ value };

    fn clone(&self) -> Result<Value, AllocError> {
        Ok(Value {
            property: self.property,
            content: self.content.clone()?,
        })
    }
}

/// An item of the archive.
#[derive(Debug, Drop)]
pub struct Item {
    /// 1 to 4,294,967,294.
    pub number: u32,
    /// The static rank, from -1,000,000,000 to 1,000,000,000.
    pub rank: i64,
    pub url: Text,
    /// The claims of which one admits a caller.
    pub allow: List<Text>,
    /// The claims of which none may be a caller's.
    pub deny: List<Text>,
    pub values: List<Value>,
}

/// A copy is equal to the item.
impl Clone for Item {
    ghost is_clone = { λ item copy. copy ≡ item };

    fn clone(&self) -> Result<Item, AllocError> {
        Ok(Item {
            number: self.number,
            rank: self.rank,
            url: self.url.clone()?,
            allow: self.allow.clone()?,
            deny: self.deny.clone()?,
            values: self.values.clone()?,
        })
    }
}

/// Somebody who may ask, with the claims that he holds.
#[derive(Debug, Drop)]
pub struct Caller {
    pub name: Text,
    pub claims: List<Text>,
}

/// A copy is equal to the caller.
impl Clone for Caller {
    ghost is_clone = { λ caller copy. copy ≡ caller };

    fn clone(&self) -> Result<Caller, AllocError> {
        Ok(Caller {
            name: self.name.clone()?,
            claims: self.claims.clone()?,
        })
    }
}

/// An archive. A row is an item's position, from 0; numbers rise with rows.
#[derive(Debug, Drop)]
pub struct Corpus {
    pub schema: Schema,
    pub callers: List<Caller>,
    pub items: List<Item>,
}
