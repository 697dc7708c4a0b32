//! What the words ask for: a demo, or what any program over a reader does.
ghost use Rattle.std.specs.Prelude.{◌≤◌, IfSome};
ghost use Rattle.model_core.specs.declared.limits.TheConstants.{MOST_DEMO_STATIONS};
ghost use Rattle.sim_io.specs.Words.{settings, texts_of};
ghost use Rattle.program_answers.specs.Answered.{EndsAsked, EndsModel};
ghost use Rattle.program_answers.specs.Endings.{status_of_ending};
ghost use Rattle.btb_program.specs.Answer.{asked_by, demo_answer};
ghost use Rattle.btb_program.specs.SavedRuns.{IsSavedSo};

use crate::stack::grow_stack;
use model_program::{Gate, Job, Stage, machine_of, run_command, run_model, telling_of};
use model_text::{AnyModel, ModelTexts, ModelTotals};
use program_answers::{Ending, ending_of};
use queue_models::ring;
use sim_io::{Settings, Sink, Source, read_words};
use std::alloc::Global;
use std::thread::Threads;

/// Simulates the ring of a demo, and writes its summary. A demo reads nothing, so the stack grows here.
fn run_demo<R: Threads + Sync, G: Gate, K: Sink>(stage: Stage<R, G>, n: u32, out: &mut K) -> Ending
    requires some { 1 ≤ n }
    requires few { n ≤ MOST_DEMO_STATIONS }
    ensures { EndsModel K.Sink out.old out.new result (demo_answer n) }
{
    match ring(stage.alloc, grow_stack(n)) {
        Ok((network, terms)) => {
            let job = Job {
                model: AnyModel::Network(network),
                terms,
                machine: machine_of(Settings::Demo { n }),
                telling: telling_of(Settings::Demo { n }),
            };
            ending_of(run_model::<R, G, AnyModel, ModelTotals, K>(stage, job, out))
        }
        Err(_) => Ending::OutOfMemory,
    }
}

/// Does what the words ask for, and answers how that ends. Nothing is read where they are refused, nor for a demo.
pub fn run_words<R: Threads + Sync, G: Gate, S: Source, K: Sink>(
    stage: Stage<R, G>,
    words: &Vec<String>,
    source: &mut S,
    out: &mut K,
) -> Ending
    ensures ends { EndsAsked S.Source K.Sink source.old source.new out.old out.new result (asked_by words.now.items) }
    ensures saved { IfSome (S.left source.old) (IsSavedSo (settings (texts_of words.now.items)) (status_of_ending result)) }
{
    let settings = match read_words(words) {
        Ok(settings) => settings,
        Err(fault) => return Ending::RefusedWords(fault),
    };
    match settings {
        Settings::Demo { n } => run_demo(stage, n, out),
        _ => run_command(stage, &ModelTexts, settings, source, out),
    }
}
