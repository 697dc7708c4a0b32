//! What is told of an event: a short list of parts.
ghost use Rattle.std.specs.Prelude.{◌≡◌, ◌<◌, ◌≤◌, ◌++◌, ◌∷◌, ◌+◌, [], length, slice_get, vec_len, vec_capacity, Some};

use std::marker::Model;

/// One thing that is told: a word, whose meaning the model gives, and two numbers.
#[derive(Clone, Copy, Debug, PartialEq, Eq)]
pub struct Part {
    pub word: u32,
    pub a: u64,
    pub b: u64,
}

/// At most four parts.
#[derive(Clone, Copy, Debug, PartialEq, Eq)]
enum Parts {
    Silent,
    One(Part),
    Two(Part, Part),
    Three(Part, Part, Part),
    Four(Part, Part, Part, Part),
}

/// A list of at most four parts, in the order in which they are told.
#[derive(Clone, Copy, Debug, PartialEq, Eq)]
pub struct Note {
    parts: Parts,
}

impl Model for Note {
    ghost use Rattle.std.specs.Prelude.{List};
    ghost use Rattle.model_core.specs.declared.note.Part.{Part};
    ghost use Rattle.model_core.specs.Notes.{parts_of, note_of, note_of-parts_of};

    ghost Value = { List Part };

    ghost view = { λ note. parts_of note.parts };

    ghost inverse = { λ parts. record { parts = note_of parts } };

    ghost inverse_ok = { λ note _ i. record { parts = note_of-parts_of note.parts i } };
}

impl Note {
    /// Tells nothing.
    pub fn none() -> Note
        ensures { result ≡ [] }
    {
        Note {
            parts: Parts::Silent,
        }
    }

    /// Tells one part.
    pub fn of(part: Part) -> Note
        ensures { result ≡ part ∷ [] }
    {
        Note {
            parts: Parts::One(part),
        }
    }

    /// Tells one part more, after the others.
    pub fn add(&mut self, part: Part)
        requires { length self.old < 4 }
        ensures { self.new ≡ self.old ++ part ∷ [] }
    {
        self.parts = match self.parts {
            Parts::Silent => Parts::One(part),
            Parts::One(first) => Parts::Two(first, part),
            Parts::Two(first, second) => Parts::Three(first, second, part),
            Parts::Three(first, second, third) => Parts::Four(first, second, third, part),
            Parts::Four(..) => unreachable!(),
        };
    }

    /// Appends its parts to a list that has room for them.
    pub fn put_into(&self, parts: &mut Vec<Part>)
        requires { vec_len parts.old + length self.now ≤ vec_capacity parts.old }
        ensures items { parts.new.items ≡ parts.old.items ++ self.now }
        ensures capacity { vec_capacity parts.new ≡ vec_capacity parts.old }
    {
        for i in 0..self.len() {
            parts.push_reserved(self.at(i));
        }
    }

    /// How many parts it tells.
    pub fn len(&self) -> usize
        ensures count { result ≡ length self.now }
        ensures few { result ≤ 4 }
    {
        match self.parts {
            Parts::Silent => 0,
            Parts::One(..) => 1,
            Parts::Two(..) => 2,
            Parts::Three(..) => 3,
            Parts::Four(..) => 4,
        }
    }

    /// The part at a place, the first at place 0.
    pub fn at(&self, i: usize) -> Part
        requires { i < length self.now }
        ensures { slice_get self.now i ≡ Some result }
    {
        match (self.parts, i) {
            (Parts::One(part), _) => part,
            (Parts::Two(part, _), 0) => part,
            (Parts::Two(_, part), _) => part,
            (Parts::Three(part, _, _), 0) => part,
            (Parts::Three(_, part, _), 1) => part,
            (Parts::Three(_, _, part), _) => part,
            (Parts::Four(part, _, _, _), 0) => part,
            (Parts::Four(_, part, _, _), 1) => part,
            (Parts::Four(_, _, part, _), 2) => part,
            (Parts::Four(_, _, _, part), _) => part,
            (Parts::Silent, _) => unreachable!(),
        }
    }
}
