//! A reader of std as a source.
ghost use Rattle.std.specs.Prelude.{◌≡◌, ◌<◌, IfOk, OnOk, length, take};
ghost use Rattle.std.specs.Io.{ReadsAtMost};
ghost use Rattle.std.specs.Io.KnownBytes.{ReadConsumes};
ghost use Rattle.sim_io.specs.Causes.{CountsFailures, HasCause};
ghost use Rattle.sim_io.specs.Taken.{GivesMore};

use crate::streams::failed::Failed;
use crate::streams::source::Source;
use std::io::Read;

/// A reader, and how often it failed, up to the last value of that count.
#[derive(Drop)]
pub struct StdSource<R> {
    reader: R,
    faults: u64,
}

impl<R: Read> StdSource<R> {
    /// A source of what the reader gives.
    pub fn new(reader: R) -> StdSource<R>
        ensures left { ⟦<StdSource<R> as Source>⟧.left result ≡ R.remaining reader }
        ensures faults { ⟦<StdSource<R> as Source>⟧.faults result ≡ 0 }
    {
        StdSource { reader, faults: 0 }
    }

    /// How often the reader failed.
    pub fn faults(&self) -> u64
        ensures { result ≡ ⟦<StdSource<R> as Source>⟧.faults self.now }
    {
        self.faults
    }

    /// The reader.
    pub fn into_inner(self) -> R
        ensures { R.remaining result ≡ ⟦<StdSource<R> as Source>⟧.left self }
    {
        let StdSource { reader, faults: _ } = self;
        reader
    }
}

impl<R: Read> Source for StdSource<R> {
    ghost left = { λ source. R.remaining source.reader };

    ghost faults = { λ source. source.faults };

    fn read(&mut self, into: &mut [u8]) -> Result<usize, Failed>
        ensures bound { ReadsAtMost result into.new }
        ensures taken { ReadConsumes (⟦<StdSource<R> as Source>⟧.left self.old) (⟦<StdSource<R> as Source>⟧.left self.new) result into.new }
        ensures cause { HasCause (⟦<StdSource<R> as Source>⟧.faults self.old) (⟦<StdSource<R> as Source>⟧.faults self.new) result }
        ensures quiet { OnOk result (⟦<StdSource<R> as Source>⟧.faults self.new ≡ ⟦<StdSource<R> as Source>⟧.faults self.old) }
        ensures gave { IfOk result (λ n. GivesMore (⟦<StdSource<R> as Source>⟧.gave self.old) (⟦<StdSource<R> as Source>⟧.gave self.new) (take n into.new)) }
        ensures end { IfOk result (λ n. n ≡ 0 → 0 < length into.new → ⟦<StdSource<R> as Source>⟧.is_at_end self.new) }
        ensures faults { CountsFailures (⟦<StdSource<R> as Source>⟧.faults self.old) (⟦<StdSource<R> as Source>⟧.faults self.new) result }
    {
        match self.reader.read(into) {
            Ok(count) => Ok(count),
            Err(_) => {
                self.faults = self.faults.saturating_add(1);
                Err(Failed)
            }
        }
    }
}
