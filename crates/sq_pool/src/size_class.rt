//! The slices of one size.

ghost use Rattle.std.specs.Prelude.{◌≡◌, ◌≢◌, ℕ, ◌+◌, ◌-◌, ◌*◌, ◌^◌, ◌<◌, ◌≤◌, [], length, IsTrue, OnOk, slice_index, nat_lt, if◌then◌else◌};
ghost use Rattle.sq_pool.specs.SizeClass.{IsTaken, IsWhole, slice_at, written, taken_words, all_words, most_slices};

use std::alloc::{AllocError, Global};
use std::marker::Model;

/// A class has at most so many slices. With more the words of a region might not be counted in 64 bits.
const MOST_SLICES: u32 = 1 << 30;

/// Slices of `width` words each, one after another, and the numbers of those that are free.
#[derive(Drop)]
pub struct SizeClass {
    width: usize,
    count: u32,
    free: Vec<u32>,
    words: Vec<u32>,
}

impl Model for SizeClass {
    ghost use Rattle.std.specs.Prelude.{ℕ, ◌*◌, take, vec_capacity};
    ghost use Rattle.sq_pool.specs.SizeClass.{ClassState, ClassView, IsClass, is_ready};

    ghost Value = { ClassView };

    ghost view = { λ s. record {
      state = record { width = s.width; count = s.count; free = s.free.items; words = take (s.count * s.width) s.words.items };
      ready = is_ready s.width s.count s.free.items (vec_capacity s.free) s.words.items;
    } };

    ghost invariant = { λ s. IsClass s.width s.count s.free.items (vec_capacity s.free) s.words.items };
}

impl SizeClass {
    pub fn new(alloc: Global, width: usize) -> SizeClass
        requires wide { 0 < width }
        requires narrow { width ≤ 2 ^ 33 }
        ensures { result.state ≡ record { width = width; count = 0; free = []; words = [] } }
    {
        SizeClass {
            width,
            count: 0,
            free: Vec::new(alloc),
            words: Vec::new(alloc),
        }
    }

    /// The number of words of the slices that chains hold.
    pub fn taken_words(&self) -> u64
        ensures value { result ≡ taken_words self.now.state }
        ensures few { result ≤ most_slices * self.now.state.width }
    {
        (self.count as u64 - self.free.len() as u64) * self.width as u64
    }

    /// The number of words of all slices.
    pub fn all_words(&self) -> u64
        ensures value { result ≡ all_words self.now.state }
        ensures few { result ≤ most_slices * self.now.state.width }
    {
        self.count as u64 * self.width as u64
    }

    /// Gets the memory for one more slice, if none is free.
    pub fn prepare(&mut self) -> Result<(), AllocError>
        ensures ready { OnOk result (IsTrue self.new.ready) }
        ensures state { self.new.state ≡ self.old.state }
    {
        if !self.free.is_empty() {
            return Ok(());
        }
        if self.count == MOST_SLICES {
            return Err(AllocError);
        }
        let count = self.count as usize + 1;
        self.free.reserve(count)?;
        if self.words.len() < count * self.width {
            self.words.resize(count * self.width, 0)?;
        }
        Ok(())
    }

    /// Hands out a free slice, or one more if there is none.
    pub fn take(&mut self) -> u32
        requires { IsTrue self.old.ready }
        ensures fresh { IsTaken self.old.state result → ⊥ }
        ensures taken { IsTaken self.new.state result }
        ensures others { (other : ℕ) → IsTaken self.old.state other → IsTaken self.new.state other }
        ensures slices { (other : ℕ) → other < self.old.state.count →
            slice_at self.new.state other ≡ slice_at self.old.state other }
        ensures free { length self.new.state.free ≡ length self.old.state.free - 1 }
        ensures count { self.new.state.count ≡
            (if nat_lt 0 (length self.old.state.free) then self.old.state.count else self.old.state.count + 1) }
        ensures width { self.new.state.width ≡ self.old.state.width }
        ensures whole { IsWhole self.new.state }
    {
        match self.free.pop() {
            Some(number) => number,
            None => {
                let number = self.count;
                self.count += 1;
                number
            }
        }
    }

    /// Takes a slice back.
    pub fn give_back(&mut self, number: u32)
        requires { IsTaken self.old.state number }
        ensures freed { IsTaken self.new.state number → ⊥ }
        ensures others { (other : ℕ) → other ≢ number → IsTaken self.old.state other → IsTaken self.new.state other }
        ensures free { length self.new.state.free ≡ length self.old.state.free + 1 }
        ensures rest { self.new.state ≡ record self.old.state { free = self.new.state.free } }
        ensures whole { IsWhole self.new.state }
    {
        if self.free.push(number).is_err() {
            unreachable!()
        }
    }

    /// A word of a slice.
    pub fn read(&self, number: u32, at: usize) -> u32
        requires below { number < self.now.state.count }
        requires within { at < self.now.state.width }
        ensures { result ≡ slice_index (slice_at self.now.state number) at }
    {
        self.words[number as usize * self.width + at]
    }

    /// Writes words into a slice, from a place on.
    pub fn write(&mut self, number: u32, at: usize, words: &[u32])
        requires below { number < self.old.state.count }
        requires within { at + length words.now ≤ self.old.state.width }
        ensures slice { slice_at self.new.state number ≡ written (slice_at self.old.state number) at words.now }
        ensures others { (other : ℕ) → other ≢ number →
            slice_at self.new.state other ≡ slice_at self.old.state other }
        ensures rest { self.new.state ≡ record self.old.state { words = self.new.state.words } }
        ensures whole { IsWhole self.new.state }
    {
        let start = number as usize * self.width + at;
        self.words[start..start + words.len()].copy_from_slice(words);
    }
}
