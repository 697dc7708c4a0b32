//! Names of objects.
ghost use Rattle.std.specs.Prelude.{◌≡◌, ◌+◌, ◌≤◌, length, IfOk, IfSome, IfNone};
ghost use Rattle.model_core.specs.Writing.{WritesAt};

use crate::writing::write_first;
use std::alloc::{AllocError, Global};
use std::marker::Model;

/// How many bytes a name has that stands in place.
const SHORT_NAME: usize = 16;

/// Where the bytes of a name are kept.
#[derive(Drop)]
enum Kept {
    /// In place, the first ones of these.
    InPlace { count: u8, bytes: [u8; 16] },
    /// In memory of their own.
    Apart(Vec<u8>),
}

/// A name, as the bytes that are printed. A short one stands in place.
#[derive(Drop)]
pub struct Name {
    kept: Kept,
}

impl Model for Name {
    ghost use Rattle.std.specs.Prelude.{ℕ, List};
    ghost use Rattle.model_core.specs.KeptNames.{bytes_of, IsCounted};

    ghost Value = { List ℕ };

    ghost view = { λ name. bytes_of name.kept };

    ghost invariant = { λ name. IsCounted name.kept };
}

impl Name {
    /// The name with these bytes.
    pub fn new(bytes: Vec<u8>) -> Name
        ensures { result ≡ bytes.items }
    {
        if bytes.len() > SHORT_NAME {
            return Name {
                kept: Kept::Apart(bytes),
            };
        }
        Name::in_place(&bytes)
    }

    /// The name with these bytes. No memory is taken for a short one.
    pub fn of(alloc: Global, bytes: &[u8]) -> Result<Name, AllocError>
        ensures { IfOk result (λ name. name ≡ bytes.now) }
    {
        if bytes.len() > SHORT_NAME {
            let kept = Kept::Apart(Vec::from_slice(alloc, bytes)?);
            return Ok(Name { kept });
        }
        Ok(Name::in_place(bytes))
    }

    /// A short name.
    fn in_place(bytes: &[u8]) -> Name
        requires { length bytes.now ≤ SHORT_NAME }
        ensures { result ≡ bytes.now }
    {
        let count = bytes.len();
        let mut short = [0; SHORT_NAME];
        short[..count].copy_from_slice(bytes);
        Name {
            kept: Kept::InPlace {
                count: count as u8,
                bytes: short,
            },
        }
    }

    /// Its bytes.
    pub fn bytes(&self) -> &[u8]
        ensures { result.now ≡ self.now }
    {
        match &self.kept {
            Kept::InPlace { count, bytes } => &bytes[..usize::from(*count)],
            Kept::Apart(bytes) => bytes.as_slice(),
        }
    }

    /// Writes a short name at a place where there is room for any, and answers the place behind it. A longer one isn't
    /// written.
    #[inline(always)]
    pub fn write(&self, into: &mut [u8], at: usize) -> Option<usize>
        requires { at + SHORT_NAME ≤ length into.old }
        ensures some { IfSome result (λ end. WritesAt into.old into.new at end self.now) }
        ensures few { IfSome result (λ end. end ≤ at + SHORT_NAME) }
        ensures none { IfNone result (into.new ≡ into.old) }
    {
        match &self.kept {
            Kept::InPlace { count, bytes } => {
                Some(write_first(usize::from(*count), bytes, into, at))
            }
            Kept::Apart(_) => None,
        }
    }
}
