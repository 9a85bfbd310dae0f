//! Operands of a run, judged for an item.
ghost use Rattle.std.specs.Prelude.{◌≡◌, if◌then◌else◌};
ghost use Rattle.sq_model.specs.Kql.{is_restriction, role};

use crate::kql::{KTree, Relation, Sign};

/// How an operand stands in its run.
#[derive(Clone, Copy, Debug, PartialEq, Eq)]
pub enum Role {
    /// A plain restriction of this property, written with `:` or `=`, or a range.
    Restricts(u32),
    /// Plain free text, `*`, a list of words, NEAR or ONEAR.
    Loose,
    Other,
}

/// An operand of a run, and whether it holds.
#[derive(Clone, Copy, Debug)]
pub struct Judged {
    pub sign: Sign,
    pub role: Role,
    pub holds: bool,
}

fn is_restriction(relation: Relation) -> bool
    ensures { result ≡ is_restriction relation }
{
    matches!(relation, Relation::Has | Relation::Equal | Relation::Range)
}

fn of_test(property: u32, relation: Relation) -> Role
    ensures { result ≡ (if is_restriction relation then Role.Restricts property else Role.Other) }
{
    if is_restriction(relation) {
        Role::Restricts(property)
    } else {
        Role::Other
    }
}

/// The role in a run of an operand of this sign.
pub fn role_of(sign: Sign, tree: &KTree) -> Role
    ensures { result ≡ role sign tree.now }
{
    match sign {
        Sign::Plain => match tree {
            KTree::TextTest {
                property,
                relation,
                ..
            } => of_test(*property, *relation),
            KTree::ValueTest {
                property,
                relation,
                ..
            } => of_test(*property, *relation),
            KTree::Free(_) | KTree::All | KTree::Words(_) | KTree::Near { .. } => Role::Loose,
            KTree::Group(_) | KTree::Run(_) | KTree::And(_) | KTree::Or(_) | KTree::Xrank { .. } =>
                Role::Other,
        },
        Sign::Plus | Sign::Minus => Role::Other,
    }
}
