/// A match in a passage: its first token, its last token, and how many tokens it matches.
#[derive(Clone, Copy, Debug)]
pub struct Triple {
    pub first: u64,
    pub last: u64,
    pub weight: u64,
}
