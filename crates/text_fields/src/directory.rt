//! Finding objects and gates by their names.
ghost use Rattle.std.specs.Prelude.{◌≡◌, IfOk, OnOk};

use std::alloc::{AllocError, Global};
use std::collections::HashMap;

/// What has a name: an object or a gate.
#[derive(Clone, Copy)]
pub struct Place {
    /// Its number among those of the model, counted from 0.
    pub number: u32,
    /// Whether others may name it.
    pub takes_links: bool,
}

/// What was read so far, by its names, which stand in what is read.
#[derive(Drop)]
pub struct Directory<'a> {
    places: HashMap<&'a [u8], Place>,
}

impl<'a> Directory<'a> {
    ghost use Rattle.text_fields.specs.Directories.{finder};
    ghost use Rattle.text_fields.specs.Names.{nothing, taken_in};

    /// A directory of nothing.
    pub fn new(alloc: Global) -> Directory<'a>
        ensures { finder result ≡ nothing }
    {
        Directory {
            places: HashMap::new(alloc),
        }
    }

    /// What has this name.
    pub fn find(&self, name: &[u8]) -> Option<Place>
        ensures { result ≡ finder self.now name.now }
    {
        self.places.get(name).copied()
    }

    /// Takes in what has a name, and answers what had it before.
    pub fn add(&mut self, name: &'a [u8], place: Place) -> Result<Option<Place>, AllocError>
        ensures before { IfOk result (λ before. before ≡ finder self.old name.now) }
        ensures taken_in { OnOk result (finder self.new ≡ taken_in (finder self.old) name.now place) }
    {
        Ok(self.places.insert(name, place)?)
    }
}
