//! What the words ask for: a table of replications, or what any program over a reader does.
ghost use Rattle.std.specs.Prelude.{◌≡◌, IfSome, option_map};
ghost use Rattle.sim_io.specs.Words.{model_settings, texts_of};
ghost use Rattle.program_answers.specs.Answered.{EndsAsked};
ghost use Rattle.program_answers.specs.Endings.{status_of_ending};
ghost use Rattle.model_program.specs.SavedRuns.{IsSavedSo};
ghost use Rattle.shop_text.specs.ShopTexts.{shop_text};
ghost use Rattle.shop_program.specs.Answer.{after_replicate, asked_by};

use crate::reader::ShopTables;
use model_program::{Gate, Stage};
use program_answers::Ending;
use shop_text::ShopTexts;
use sim_io::{Sink, Source};
use std::thread::Threads;

/// The words that follow `replicate` as the first one.
#[tactic(auto, unfolding(crate::specs::Answer::after_replicate))]
fn after_replicate(words: &[String]) -> Option<&[String]>
    ensures { option_map (λ rest. texts_of rest.now) result ≡ after_replicate (texts_of words.now) }
{
    let [first, rest @ ..] = words else {
        return None;
    };
    if first.as_str() == "replicate" {
        Some(rest)
    } else {
        None
    }
}

/// Does what the words ask for, and answers how that ends. Nothing is read where they are refused.
pub fn run_words<R: Threads + Sync, G: Gate, S: Source, K: Sink>(
    stage: Stage<R, G>,
    words: &Vec<String>,
    source: &mut S,
    out: &mut K,
) -> Ending
    ensures ends { EndsAsked S.Source K.Sink source.old source.new out.old out.new result (asked_by words.now.items) }
    ensures saved { IfSome (S.left source.old) (IsSavedSo shop_text (model_settings (texts_of words.now.items)) (status_of_ending result)) }
{
    match after_replicate(words.as_slice()) {
        Some(rest) => {
            table_program::run_words(stage.rt, stage.alloc, &ShopTables, rest, source, out)
        }
        None => model_program::run_words(stage, &ShopTexts, words, source, out),
    }
}
