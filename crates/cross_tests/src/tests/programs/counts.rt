//! A sink that tells no bytes, of which contracts say how many it took.
ghost use Rattle.std.specs.Prelude.{◌≡◌, ◌-◌, ◌^◌, min, length};
ghost use Rattle.program_answers.specs.Answer.{OfAnswer};
ghost use Rattle.program_answers.specs.Endings.{IsAnswering};
ghost use Rattle.btb_program.specs.Answer.{asked_by};

use btb_program::btb;
use model_program::Open;
use sim_io::{CleanSink, CleanSource, Failed, Sink, Source};
use std::alloc::AllocGlobal;
use std::marker::Model;
use std::test::Fail;
use std::thread::Threads;
use test_texts::wanted::SHOP_TEXT;
use test_texts::{SHOP, words_of};

/// Counts the bytes that it takes, up to the last value of that count, and keeps none.
#[derive(Drop)]
struct CountingSink {
    count: u64,
}

impl Model for CountingSink {
    ghost use Rattle.std.specs.Prelude.{ℕ};

    ghost Value = { ℕ };

    ghost view = { λ sink. sink.count };
}

impl Sink for CountingSink {
    ghost use Rattle.sim_io.specs.Gathering.{nothing_back};
    ghost use Rattle.cross_tests.specs.Counts.{counted};

    ghost told = { counted };

    ghost handed = { counted };

    ghost faults = { λ _. 0 };

    fn write(&mut self, bytes: &[u8]) -> Result<usize, Failed> {
        self.count = self.count.saturating_add(bytes.len() as u64);
        Ok(bytes.len())
    }

    fn flush(&mut self) -> Result<(), Failed> {
        Ok(())
    }

    ghost in_order = { λ count. nothing_back (counted count) };
}

/// The status of a run of these words, and how long its text is, which nobody keeps.
fn text_length<R: AllocGlobal + Threads + Sync>(
    rt: &R,
    words: &Vec<String>,
    mut source: CleanSource,
) -> (u8, u64)
    ensures { OfAnswer (asked_by words.now.items) (⟦<CleanSource as Source>⟧.left source) (λ answer.
        IsAnswering result.0 → result.1 ≡ min (length answer.output) (2 ^ 64 - 1)) }
{
    let (mut out, mut notes) = (CountingSink { count: 0 }, CleanSink::new());
    let status = btb(rt, words, &mut source, &mut out, &mut notes, &Open);
    (status, out.count)
}

#[test]
fn a_sink_that_tells_no_bytes_has_taken_all(rt: HostRuntime) -> Result<(), Fail> {
    let source = CleanSource::new(SHOP.as_bytes().to_vec(rt.alloc())?);
    let words = words_of(rt.alloc(), "run")?;
    let (status, length) = text_length(&rt, &words, source);
    assert!(rt; (status, length) == (0, SHOP_TEXT.len() as u64));
    Ok(())
}
