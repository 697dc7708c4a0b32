//! A processed event that is carried, on its way from one list to another.
ghost use Rattle.std.specs.Prelude.{◌≡◌};
ghost use Rattle.event_key.specs.declared.stamp.TheConstants.{NO_STAMP};
ghost use Rattle.key_order.specs.Stamps.{least_stamp};
ghost use Rattle.event_log.specs.Keeping.{IsKept, done_in};

use crate::contents::Contents;
use event_key::Key;
use std::marker::Model;

/// A processed event with all that takes it back. It is large, so it moves only with its object.
#[derive(Drop)]
pub struct Kept {
    contents: Contents,
}

impl Model for Kept {
    ghost use Rattle.object_log.specs.Dones.{Done};
    ghost use Rattle.event_log.specs.Keeping.{IsKept, done_in};

    ghost Value = { Done };

    ghost view = { λ k. done_in k.contents };

    ghost invariant = { λ k. IsKept k.contents };
}

impl Kept {
    /// What lay in a slot.
    pub fn new(contents: Contents) -> Kept
        requires { IsKept contents }
        ensures { result ≡ done_in contents }
    {
        Kept { contents }
    }

    /// What is to lie in a slot.
    pub fn into_contents(self) -> Contents
        ensures kept { IsKept result }
        ensures done { done_in result ≡ self }
    {
        let Kept { contents } = self;
        contents
    }

    /// The key of the event.
    pub fn key(&self) -> Key
        ensures { result ≡ self.now.event.key }
    {
        self.contents.event.key
    }

    /// The least stamp that it sends, or `NO_STAMP`.
    pub fn least(&self) -> u64
        ensures { result ≡ least_stamp NO_STAMP self.now.sends }
    {
        self.contents.least
    }
}
