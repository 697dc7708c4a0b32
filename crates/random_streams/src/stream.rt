//! The random words of one object, from a place on.
ghost use Rattle.std.specs.Prelude.{◌≡◌, ℕ, ◌+◌, ◌-◌, ◌%◌, ◌^◌, ◌<◌, ◌≤◌, length, slice_index};
ghost use Rattle.std.specs.Bool.{OnTrue, OnFalse};
ghost use Rattle.random_streams.specs.Words.{word_of, words_from, AreWords};

use crate::block::block;
use std::marker::Model;
use std::simd::prelude::*;

/// How many words a block has.
const BLOCK_WORDS: u64 = 16;

/// A reader of an object's random words under a seed, which stands at a place of them.
///
/// It keeps the block of sixteen words that it reads, as long as it stands in it, and makes a block of the cipher when a
/// word of another is asked for. So a run of words costs a block for every sixteen, and one that reads no word costs
/// none. Places count modulo 2^64.
#[derive(Drop)]
pub struct Stream {
    seed: u64,
    pub(crate) place: u64,
    // the last two, since what has 32 bits and less fits together there
    object: u32,
    kept: Kept,
}

/// The words of the block about a place, if they are made.
#[derive(Drop)]
struct Kept {
    are_made: bool,
    words: [u32; 16],
}

impl Model for Stream {
    ghost use Rattle.std.specs.Prelude.{◌-◌, ◌%◌};
    ghost use Rattle.std.specs.Bool.{OnTrue};
    ghost use Rattle.random_streams.specs.Words.{StreamView, AreWords};

    ghost Value = { StreamView };

    ghost view = { λ s. record { seed = s.seed; object = s.object; place = s.place } };

    ghost invariant = { λ s. OnTrue s.kept.are_made (AreWords s.seed s.object (s.place - s.place % 16) s.kept.words) };
}

impl Kept {
    /// Makes the words of the block about a place, if they aren't made yet.
    #[inline(always)]
    fn load(&mut self, seed: u64, object: u32, place: u64)
        requires { OnTrue self.old.are_made (AreWords seed object (place - place % 16) self.old.words) }
        ensures { AreWords seed object (place - place % 16) self.new.words }
    {
        if !self.are_made {
            self.words = block(seed, object, place / BLOCK_WORDS);
            self.are_made = true;
        }
    }
}

impl Stream {
    /// The words of an object under a seed, from a place on.
    pub fn new(seed: u64, object: u32, place: u64) -> Stream
        ensures { result ≡ record { seed = seed; object = object; place = place } }
    {
        Stream {
            seed,
            place,
            object,
            kept: Kept {
                are_made: false,
                words: [0; 16],
            },
        }
    }

    /// Moves to a place of an object's words under a seed. The words that it has made stay at hand if that lies in their block.
    pub fn move_to(&mut self, seed: u64, object: u32, place: u64)
        ensures { self.new ≡ record { seed = seed; object = object; place = place } }
    {
        if self.seed != seed || self.object != object {
            self.seed = seed;
            self.object = object;
            self.kept.are_made = false;
        }
        if self.place != place {
            self.jump_to(place);
        }
    }

    /// Moves to another place of the same words.
    #[inline(always)]
    fn jump_to(&mut self, place: u64)
        ensures { self.new ≡ record self.old { place = place } }
    {
        if self.place / BLOCK_WORDS != place / BLOCK_WORDS {
            self.kept.are_made = false;
        }
        self.place = place;
    }

    /// The place of the next word.
    pub fn place(&self) -> u64
        ensures { result ≡ self.now.place }
    {
        self.place
    }

    /// The word at the place, which moves on by one.
    pub fn word(&mut self) -> u32
        ensures word { result ≡ word_of self.old.seed self.old.object self.old.place }
        ensures place { self.new ≡ record self.old { place = (self.old.place + 1) % 2 ^ 64 } }
    {
        self.kept.load(self.seed, self.object, self.place);
        let word = self.kept.words[(self.place % BLOCK_WORDS) as usize];
        self.place = self.place.wrapping_add(1);
        self.kept.are_made = self.place % BLOCK_WORDS != 0;
        word
    }

    /// Reads words of one block until one is below a bound, at most so many: how many it reads, and whether the last of
    /// them is below the bound.
    #[inline(always)]
    pub(crate) fn read_until_below(&mut self, bound: u32, most: u32) -> (u32, bool)
        requires { 1 ≤ most }
        ensures some { 1 ≤ result.0 }
        ensures few { result.0 ≤ most }
        ensures misses { (k : ℕ) → k + 1 < result.0 → bound ≤ words_from self.old.seed self.old.object self.old.place k }
        ensures below { OnTrue result.1 (words_from self.old.seed self.old.object self.old.place (result.0 - 1) < bound) }
        ensures missed { OnFalse result.1 (bound ≤ words_from self.old.seed self.old.object self.old.place (result.0 - 1)) }
        ensures place { self.new ≡ record self.old { place = (self.old.place + result.0) % 2 ^ 64 } }
    {
        self.kept.load(self.seed, self.object, self.place);
        let within = (self.place % BLOCK_WORDS) as usize;
        let count = (most as usize).min(16 - within);
        let misses = misses(&self.kept.words, within, count, bound);
        if misses < count {
            self.place = self.place.wrapping_add(misses as u64 + 1);
            self.kept.are_made = self.place % BLOCK_WORDS != 0;
            return (misses as u32 + 1, true);
        }
        self.place = self.place.wrapping_add(count as u64);
        self.kept.are_made = self.place % BLOCK_WORDS != 0;
        (count as u32, false)
    }
}

/// How many of so many words from a place on come before the first that is below a bound. All words of the block are compared
/// at once, with no branch.
#[inline(always)]
fn misses(words: &[u32; 16], from: usize, count: usize, bound: u32) -> usize
    requires { from + count ≤ 16 }
    ensures few { result ≤ count }
    ensures before { (k : ℕ) → k < result → bound ≤ slice_index words.now (from + k) }
    ensures at { result < count → slice_index words.now (from + result) < bound }
{
    let below = u32x16::from_array(*words)
        .simd_lt(u32x16::splat(bound))
        .to_bitmask();
    ((below >> from).trailing_zeros() as usize).min(count)
}
