//! A line of values that are taken and given at both ends.
ghost use Rattle.std.specs.Prelude.{◌≡◌, ◌+◌, ◌-◌, ◌<◌, ◌≤◌, [], ◌∷◌, ◌++◌};
ghost use Rattle.std.specs.Prelude.{length, take, drop, slice_index, IfOk, OnOk};
ghost use Rattle.delta_exchange.specs.Changes.{flipped, with_flipped};
ghost use Rattle.delta_exchange.specs.Views.{unspared};

use std::alloc::AllocError;
use std::collections::VecDeque;
use std::marker::Model;

/// Values in order, and for how many more there is room for certain.
#[derive(Drop)]
pub struct Line {
    queue: VecDeque<u64>,
    spare: usize,
}

impl Model for Line {
    ghost use Rattle.std.specs.Prelude.{◌+◌, ◌≤◌};
    ghost use Rattle.std.specs.VecDeque.{deque_len, deque_capacity};
    ghost use Rattle.delta_exchange.specs.Views.{LineView};

    ghost Value = { LineView };

    ghost view = { λ line. record { values = line.queue.items; spare = line.spare } };

    ghost invariant = { λ line. deque_len line.queue + line.spare ≤ deque_capacity line.queue };
}

impl Line {
    /// These values, with no spare.
    pub fn from_vec(values: Vec<u64>) -> Line
        ensures { result ≡ unspared values.items }
    {
        let queue = VecDeque::from_vec(values);
        Line { queue, spare: 0 }
    }

    /// A line of the same values, with no spare.
    pub fn copy(&self) -> Result<Line, AllocError>
        ensures { IfOk result (λ line. line ≡ unspared self.now.values) }
    {
        Ok(Line {
            queue: self.queue.clone()?,
            spare: 0,
        })
    }

    /// How many values it holds.
    pub fn len(&self) -> usize
        ensures { result ≡ length self.now.values }
    {
        self.queue.len()
    }

    /// The value at a place, the first at place 0.
    pub fn at(&self, place: usize) -> u64
        requires { place < length self.now.values }
        ensures { result ≡ slice_index self.now.values place }
    {
        self.queue[place]
    }

    /// Makes the spare at least this many. The queue grows to twice its length at least.
    #[inline(always)]
    pub fn reserve(&mut self, places: usize) -> Result<(), AllocError>
        ensures values { self.new.values ≡ self.old.values }
        ensures spare { OnOk result (places ≤ self.new.spare) }
        ensures never_less { self.old.spare ≤ self.new.spare }
    {
        if places <= self.spare {
            return Ok(());
        }
        self.grow(places)
    }

    /// Makes the spare this many, which are more than it has.
    #[inline(never)]
    fn grow(&mut self, places: usize) -> Result<(), AllocError>
        requires { self.old.spare < places }
        ensures values { self.new.values ≡ self.old.values }
        ensures spare { OnOk result (places ≤ self.new.spare) }
        ensures never_less { self.old.spare ≤ self.new.spare }
    {
        self.queue.reserve(places)?;
        self.spare = places;
        Ok(())
    }

    /// Puts a value in as the last.
    pub fn push_back(&mut self, value: u64)
        requires { 0 < self.old.spare }
        ensures { self.new ≡ record {
          values = self.old.values ++ value ∷ [];
          spare = self.old.spare - 1;
        } }
    {
        self.queue.push_back_reserved(value);
        self.spare -= 1;
    }

    /// Puts a value in as the first.
    pub fn push_front(&mut self, value: u64)
        requires { 0 < self.old.spare }
        ensures { self.new ≡ record {
          values = value ∷ self.old.values;
          spare = self.old.spare - 1;
        } }
    {
        self.queue.push_front_reserved(value);
        self.spare -= 1;
    }

    /// Takes the last value out.
    pub fn pop_back(&mut self) -> u64
        requires { 0 < length self.old.values }
        ensures value { result ≡ slice_index self.old.values (length self.old.values - 1) }
        ensures rest { self.new ≡ record {
          values = take (length self.old.values - 1) self.old.values;
          spare = self.old.spare + 1;
        } }
    {
        let value = self.queue.pop_back().unwrap();
        self.spare += 1;
        value
    }

    /// Takes the first value out.
    pub fn pop_front(&mut self) -> u64
        requires { 0 < length self.old.values }
        ensures value { result ≡ slice_index self.old.values 0 }
        ensures rest { self.new ≡ record {
          values = drop 1 self.old.values;
          spare = self.old.spare + 1;
        } }
    {
        let value = self.queue.pop_front().unwrap();
        self.spare += 1;
        value
    }

    /// Turns each bit of the value at a place, the first at place 0.
    pub fn flip(&mut self, place: usize)
        requires { place < length self.old.values }
        ensures { self.new ≡ record self.old { values = with_flipped self.old.values place } }
    {
        let value = self.queue[place];
        self.queue[place] = flipped(value);
    }
}

/// The value with each of its bits turned.
#[tactic(auto, unfolding(crate::specs::Changes::flipped))]
fn flipped(value: u64) -> u64
    ensures { result ≡ flipped value }
{
    u64::MAX - value
}
