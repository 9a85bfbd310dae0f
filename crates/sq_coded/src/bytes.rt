ghost use Rattle.std.specs.Prelude.{◌≡◌, ℕ, ◌<◌, ◌^◌, List, ◌∷◌, ◌++◌, [], drop, length, slice_index_or, suc};
ghost use Rattle.sq_coded.specs.Coded.{coded, unpacked, digits, number_bytes, numbers_bytes, difference, AreWords, Follows};
ghost use Rattle.sq_coded.specs.declared.posting.Posting.{Posting as Entry};

use crate::lists::Lists;
use crate::posting::Posting;
use std::marker::Model;

/// The bytes of a list's code from a word on, of which `left` of the word at hand are not read yet.
#[derive(Drop)]
pub(crate) struct Bytes<'a> {
    lists: &'a Lists,
    list: usize,
    next: u32,
    word: u32,
    left: u32,
}

impl<'a> Model for Bytes<'a> {
    ghost use Rattle.std.specs.Prelude.{List, ℕ};

    ghost Value = { List ℕ };

    ghost use Rattle.sq_coded.specs.Reading.{bytes_at, IsWithin};

    ghost view = { λ b. bytes_at b.lists.now b.list b.next b.word b.left };

    ghost invariant = { λ b. IsWithin b.lists.now b.list };
}

/// The entry behind another one, by its numbers.
fn later(before: Posting, numbers: Posting) -> Posting
    ensures { (e : Entry) → Follows before e → numbers ≡ difference before e → result ≡ e }
{
    if numbers.row != 0 {
        return Posting {
            row: before.row.saturating_add(numbers.row),
            ordinal: numbers.ordinal,
            place: numbers.place,
        };
    }
    if numbers.ordinal != 0 {
        return Posting {
            row: before.row,
            ordinal: before.ordinal.saturating_add(numbers.ordinal),
            place: numbers.place,
        };
    }
    Posting {
        row: before.row,
        ordinal: before.ordinal,
        place: before.place.saturating_add(numbers.place),
    }
}

impl<'a> Bytes<'a> {
    /// The bytes from a word on.
    pub(crate) fn new(lists: &'a Lists, list: usize, next: u32) -> Bytes<'a>
        requires list { list < length lists.now }
        requires short { length (coded (slice_index_or lists.now list [])) < 2 ^ 32 }
        ensures { result ≡ unpacked (drop next (coded (slice_index_or lists.now list []))) }
    {
        Bytes {
            lists,
            list,
            next,
            word: 0,
            left: 0,
        }
    }

    /// Takes the next byte, and gives zero at the end.
    fn byte(&mut self) -> u32
        ensures { (b : ℕ) (bytes : List ℕ) → self.old ≡ b ∷ bytes → (result ≡ b) × (self.new ≡ bytes) }
    {
        if self.left > 0 {
            let byte = self.word % 256;
            self.word /= 256;
            self.left -= 1;
            return byte;
        }
        match self.lists.read(self.list, self.next) {
            Some(word) => {
                self.next += 1;
                self.word = word / 256;
                self.left = 3;
                word % 256
            }
            None => 0,
        }
    }

    /// Takes the next number, which has at most `more` bytes and one.
    fn number(&mut self, more: u32) -> u32
        ensures { (n : ℕ) (bytes : List ℕ) → n < 2 ^ 32 → n < 128 ^ suc more → self.old ≡ digits more n ++ bytes → (result ≡ n) × (self.new ≡ bytes) }
    {
        let byte = self.byte();
        if byte < 128 || more == 0 {
            return byte;
        }
        let high = self.number(more - 1);
        high.saturating_mul(128).saturating_add(byte - 128)
    }

    /// Takes the next entry, behind another one.
    pub(crate) fn entry(&mut self, before: Posting) -> Posting
        ensures { (e : Entry) (bytes : List ℕ) → Follows before e → self.old ≡ numbers_bytes (difference before e) ++ bytes → (result ≡ e) × (self.new ≡ bytes) }
    {
        let row = self.number(4);
        let ordinal = self.number(4);
        let place = self.number(4);
        later(
            before,
            Posting {
                row,
                ordinal,
                place,
            },
        )
    }
}
