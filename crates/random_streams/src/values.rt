//! The values of a table.
ghost use Rattle.std.specs.Prelude.{◌≡◌};

use std::marker::Model;

/// A list of values.
#[derive(Debug, Drop)]
pub struct Values {
    list: Vec<u64>,
}

impl Model for Values {
    ghost use Rattle.std.specs.Prelude.{List, ℕ};

    ghost Value = { List ℕ };

    ghost view = { λ v. v.list.items };
}

impl Values {
    /// These values, in this order.
    pub fn new(list: Vec<u64>) -> Values
        ensures { result ≡ list.items }
    {
        Values { list }
    }

    /// The values in their order.
    pub fn as_slice(&self) -> &[u64]
        ensures { result.now ≡ self.now }
    {
        &self.list
    }
}
