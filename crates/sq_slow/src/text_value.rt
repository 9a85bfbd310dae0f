use sq_tokens::Tokens;

/// A value of a text property as its tokens.
#[derive(Drop)]
pub struct TextValue {
    pub property: u32,
    pub tokens: Tokens,
}
