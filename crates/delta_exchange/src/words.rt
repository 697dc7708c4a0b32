//! The words of an object.
ghost use Rattle.std.specs.Prelude.{◌≡◌, ◌<◌, ◌≤◌, ◌^◌, length, slice_index, slice_set, IfOk};

use std::alloc::{AllocError, Global};
use std::marker::Model;

/// How many words stand in place.
const FEW: usize = 4;

/// Where words are kept.
#[derive(Drop)]
enum Kept {
    /// In place, the first ones of these.
    InPlace { count: u32, words: [u64; 4] },
    /// In memory of their own.
    Apart(Vec<u64>),
}

/// Words in order. The few words that most objects have stand in place, so that an event at the object reaches them
/// with the object.
#[derive(Drop)]
pub struct Words {
    kept: Kept,
}

impl Model for Words {
    ghost use Rattle.std.specs.Prelude.{ℕ, List};
    ghost use Rattle.delta_exchange.specs.KeptWords.{words_of, IsCounted};

    ghost Value = { List ℕ };

    ghost view = { λ words. words_of words.kept };

    ghost invariant = { λ words. IsCounted words.kept };
}

impl Words {
    /// These words.
    pub fn new(list: Vec<u64>) -> Words
        ensures { result ≡ list.items }
    {
        if list.len() > FEW {
            return Words {
                kept: Kept::Apart(list),
            };
        }
        Words::in_place(&list)
    }

    /// These words. No memory is taken for a few.
    pub fn of(alloc: Global, list: &[u64]) -> Result<Words, AllocError>
        ensures { IfOk result (λ words. words ≡ list.now) }
    {
        if list.len() > FEW {
            let kept = Kept::Apart(Vec::from_slice(alloc, list)?);
            return Ok(Words { kept });
        }
        Ok(Words::in_place(list))
    }

    /// These few words.
    fn in_place(list: &[u64]) -> Words
        requires { length list.now ≤ FEW }
        ensures { result ≡ list.now }
    {
        let count = list.len();
        let mut words = [0; FEW];
        words[..count].copy_from_slice(list);
        Words {
            kept: Kept::InPlace {
                count: count as u32,
                words,
            },
        }
    }

    /// The same words.
    pub fn copy(&self, alloc: Global) -> Result<Words, AllocError>
        ensures { IfOk result (λ copy. copy ≡ self.now) }
    {
        let kept = match &self.kept {
            Kept::InPlace { count, words } => Kept::InPlace {
                count: *count,
                words: *words,
            },
            Kept::Apart(list) => Kept::Apart(Vec::from_slice(alloc, list)?),
        };
        Ok(Words { kept })
    }

    /// How many there are.
    pub fn len(&self) -> u32
        requires { length self.now < 2 ^ 32 }
        ensures { result ≡ length self.now }
    {
        match &self.kept {
            Kept::InPlace { count, .. } => *count,
            Kept::Apart(list) => list.len() as u32,
        }
    }

    /// The word at a place, the first at place 0.
    #[inline(always)]
    pub fn at(&self, place: u32) -> u64
        requires { place < length self.now }
        ensures { result ≡ slice_index self.now place }
    {
        match &self.kept {
            Kept::InPlace { words, .. } => words[place as usize],
            Kept::Apart(list) => list[place as usize],
        }
    }

    /// Puts a value at a place, for the word that stood there.
    #[inline(always)]
    pub fn set(&mut self, place: u32, value: u64)
        requires { place < length self.old }
        ensures { self.new ≡ slice_set self.old place value }
    {
        match &mut self.kept {
            Kept::InPlace { words, .. } => words[place as usize] = value,
            Kept::Apart(list) => list[place as usize] = value,
        }
    }
}
