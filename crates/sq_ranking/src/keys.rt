//! What hits are ordered by, in places of a fixed number, so that ordering takes no memory of its own.
ghost use Rattle.std.specs.Prelude.{◌≡◌};
ghost use Rattle.std.specs.Ordering.{is_lt, is_gt};

use sq_packet::Direction;
use std::cmp::Ordering;

/// The directions of the sorts of a request, in the request's order. The first empty place ends them.
#[derive(Clone, Copy, Debug, PartialEq, Eq)]
pub struct Directions {
    pub first: Option<Direction>,
    pub second: Option<Direction>,
    pub third: Option<Direction>,
    pub fourth: Option<Direction>,
}

/// The key of a hit for each sort; `None` where the hit has none, and it then goes last.
#[derive(Clone, Copy, Debug, PartialEq, Eq)]
pub struct SortKeys {
    pub first: Option<i64>,
    pub second: Option<i64>,
    pub third: Option<i64>,
    pub fourth: Option<i64>,
}

/// A hit by what it is ordered by: its number (or the row that rises with it), its score and its keys.
#[derive(Clone, Copy, Debug, PartialEq, Eq)]
pub struct RankedHit {
    pub number: u32,
    pub score: i64,
    pub keys: SortKeys,
}

impl RankedHit {
    ghost use Rattle.sq_ranking.specs.Keys.{directions_of, ranked_hit};
    ghost use Rattle.sq_ranking.specs.Ranking.{by_score, comes_before};

    /// The higher score first, and of equal scores the lower number.
    fn compare_scores(&self, other: &RankedHit) -> Ordering
        ensures { is_lt result ≡ by_score (ranked_hit self.now) (ranked_hit other.now) }
    {
        match other.score.cmp(&self.score) {
            Ordering::Equal => self.number.cmp(&other.number),
            by_score => by_score,
        }
    }

    /// The first sort by which the keys differ decides, else the scores.
    pub fn compare(&self, other: &RankedHit, order: &Directions) -> Ordering
        ensures { is_lt result ≡ comes_before (directions_of order.now) (ranked_hit self.now) (ranked_hit other.now) }
    {
        let Some(first) = order.first else {
            return self.compare_scores(other);
        };
        let by_first = compare_keys(first, self.keys.first, other.keys.first);
        if by_first != Ordering::Equal {
            return by_first;
        }
        let Some(second) = order.second else {
            return self.compare_scores(other);
        };
        let by_second = compare_keys(second, self.keys.second, other.keys.second);
        if by_second != Ordering::Equal {
            return by_second;
        }
        let Some(third) = order.third else {
            return self.compare_scores(other);
        };
        let by_third = compare_keys(third, self.keys.third, other.keys.third);
        if by_third != Ordering::Equal {
            return by_third;
        }
        let Some(fourth) = order.fourth else {
            return self.compare_scores(other);
        };
        let by_fourth = compare_keys(fourth, self.keys.fourth, other.keys.fourth);
        if by_fourth != Ordering::Equal {
            return by_fourth;
        }
        self.compare_scores(other)
    }
}

ghost use Rattle.sq_ranking.specs.Ranking.{goes_before};

/// The key that goes before the other is less; a key goes before none.
fn compare_keys(direction: Direction, a: Option<i64>, b: Option<i64>) -> Ordering
    ensures less { is_lt result ≡ goes_before direction a b }
    ensures greater { is_gt result ≡ goes_before direction b a }
{
    match (a, b) {
        (None, None) => Ordering::Equal,
        (None, Some(_)) => Ordering::Greater,
        (Some(_), None) => Ordering::Less,
        (Some(a), Some(b)) => match direction {
            Direction::Ascending => a.cmp(&b),
            Direction::Descending => b.cmp(&a),
        },
    }
}
