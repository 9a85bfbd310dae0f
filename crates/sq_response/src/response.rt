//! Responses: what a request is answered.

use sq_base::{List, QueryFault, Text};

/// How often the hits have a number, or how many have a number of a bucket.
#[derive(Clone, Copy, Debug, PartialEq, Eq)]
pub enum Entry {
    /// So many hits have this value.
    Single {
        value: i64,
        count: u64,
    },
    /// So many hits have a number at least `from`, where there is one, and below `to`, where there is one.
    Bucket {
        from: Option<i64>,
        to: Option<i64>,
        count: u64,
    },
}

/// The counts of a refiner, under its property's name as the schema spells it.
#[derive(Debug, Drop)]
pub struct Refined {
    pub name: Text,
    pub entries: List<Entry>,
}

/// A value of a hit as it is shown, under its property's name as the schema spells it.
#[derive(Debug, Drop)]
pub struct Shown {
    pub name: Text,
    pub text: Text,
}

/// An item on the page.
#[derive(Debug, Drop)]
pub struct Hit {
    /// The item's number, 1 to 4,294,967,294.
    pub number: u32,
    /// The static rank and the query's boost together.
    pub score: i64,
    pub url: Text,
    /// In the order of the properties asked for.
    pub values: List<Shown>,
}

/// The page of an answer with at least one hit.
#[derive(Debug, Drop)]
pub struct Found {
    /// The place of the page's first hit in the request's order, from 1.
    pub start: u32,
    /// How many hits there are, on the page and off it.
    pub total: u64,
    pub hits: List<Hit>,
    pub refiners: List<Refined>,
}

/// What a request is answered.
#[derive(Debug, Drop)]
pub enum Response {
    Found(Found),
    /// No item is a hit.
    Nothing,
    /// The query's text was refused.
    BadQuery(QueryFault),
    /// The packet, the caller, a refiner or a sort was refused.
    BadRequest(QueryFault),
}
