//! What has been read so far.

use crate::element::Element;
use crate::mark::Mark;
use crate::request::{Direction, Language, Request};
use sq_base::{List, Text};

/// The request so far, the elements that have begun, and the place of `<Range`.
#[derive(Debug, Drop)]
pub struct Draft {
    pub request: Request,
    pub seen: List<Element>,
    pub range: u32,
}

/// An attribute of a tag, and the place of its value.
#[derive(Debug, Drop)]
pub struct Attribute {
    pub name: Text,
    pub value: Text,
    pub at: u32,
}

/// What the attributes of one tag say.
#[derive(Debug, Drop)]
pub struct Tag {
    pub is_in_namespace: bool,
    pub language: Language,
    pub name: Option<Text>,
    pub direction: Direction,
}

/// What is left of the packet, the element that is open, and what has been read.
#[derive(Debug, Drop)]
pub struct Reading<'a> {
    pub rest: &'a [Mark],
    pub inside: Option<Element>,
    pub draft: Draft,
}
