//! The rule of a deque, and what each step on it tells.
ghost use Rattle.std.specs.Prelude.{◌≡◌, ◌+◌, ◌-◌, [], ◌++◌};
ghost use Rattle.steal_pool.specs.Tallies.{tally, IsEmptied, IsNext};

use crate::task::Task;
use crossbeam_deque::protocol::{Join, Outcome, Protocol, Split};
use std::collections::LinkedList;

/// What one who may take from a deque knows of it: how many parts it has of the right to know all, what was put in, and
/// what it has taken itself. It stands in proofs alone, and no value of it is made.
pub struct Tally<T> {
    pub parts: u64,
    pub put: LinkedList<Task<T>>,
    pub taken: LinkedList<Task<T>>,
}

/// The rule: each task that was put lies in the deque, or was taken by one.
pub struct Rule;

impl<T> Protocol<Task<T>, Tally<T>> for Rule {
    ghost use Rattle.std.specs.Prelude.{[]};
    ghost use Rattle.steal_pool.specs.Tallies.{tally, WHOLE};
    ghost use Rattle.steal_pool.specs.Counts.{Counted};

    ghost holds = { Counted };

    ghost first = { tally WHOLE [] [] };

    ghost guest = { tally 0 [] [] };
}

/// The owner puts a task in.
pub struct Puts;

impl<T> Outcome<Task<T>, Tally<T>> for Puts {
    ghost then = { λ before tasks after. after ≡ tally before.parts (before.put ++ tasks) before.taken };
}

/// The owner takes a task. Where it finds none, and has all parts, all were taken.
pub struct Takes;

impl<T> Outcome<Task<T>, Tally<T>> for Takes {
    ghost then = { IsNext };

    ghost empty = { λ now. IsEmptied now };
}

/// A thief takes a task.
pub struct Steals;

impl<T> Outcome<Task<T>, Tally<T>> for Steals {
    ghost then = { IsNext };
}

/// A thief gets one part, and gives it back with what it has taken.
pub struct Part;

impl<T> Split<Tally<T>> for Part {
    ghost left = { λ whole. tally (whole.parts - 1) whole.put whole.taken };

    ghost right = { λ whole. tally 1 whole.put [] };
}

impl<T> Join<Tally<T>> for Part {
    ghost both = { λ one other. tally (one.parts + other.parts) one.put (one.taken ++ other.taken) };

    ghost spent = { tally 0 [] [] };
}
