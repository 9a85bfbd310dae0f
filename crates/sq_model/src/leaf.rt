use sq_base::Text;
use sq_tokens::Pattern;

/// A literal of a query, and the pattern that it asks for.
#[derive(Debug, Drop)]
pub struct Leaf {
    pub text: Text,
    pub pattern: Pattern,
}
