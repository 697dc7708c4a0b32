//! The parts of a line. Each call appends a text; where memory runs out, it may have appended some of it.
ghost use Rattle.std.specs.Prelude.{◌≡◌, ◌<◌, ◌++◌, OnOk, decimal};
ghost use Rattle.std.specs.Io.{StartsWith};
ghost use Rattle.model_core.specs.SpacedWords.{between_spaces};
ghost use Rattle.sim_io.specs.Texts.{stamp_text, fault_text, place_text, word_text};

use event_key::{Key, step_of, time_of};
use itoa::Buffer;
use model_core::model::Model;
use model_core::{ENDLESS_CHAIN, OutOfMemory};
use std::alloc::Global;

/// A number in decimal.
pub fn put_number(number: u64, into: &mut Vec<u8>) -> Result<(), OutOfMemory>
    ensures ok { OnOk result (into.new.items ≡ into.old.items ++ decimal number) }
    ensures prefix { StartsWith into.new.items into.old.items }
{
    let mut buffer = Buffer::new();
    into.extend_from_slice(buffer.format(number).as_bytes())?;
    Ok(())
}

/// A stamp, as its time and its step.
#[tactic(auto, unfolding(crate::specs::Texts::stamp_text))]
pub fn put_stamp(stamp: u64, into: &mut Vec<u8>) -> Result<(), OutOfMemory>
    ensures ok { OnOk result (into.new.items ≡ into.old.items ++ stamp_text stamp) }
    ensures prefix { StartsWith into.new.items into.old.items }
{
    put_number(time_of(stamp), into)?;
    into.push(b'.')?;
    put_number(u64::from(step_of(stamp)), into)
}

/// When and where an event happens.
#[tactic(auto, unfolding(crate::specs::Texts::place_text))]
pub fn put_place<M: Model>(
    alloc: Global,
    model: &M,
    key: &Key,
    into: &mut Vec<u8>,
) -> Result<(), OutOfMemory>
    requires { key.now.dest < (M.meaning model.now).objects }
    ensures ok { OnOk result (into.new.items ≡ into.old.items ++ place_text (M.meaning model.now) key.now) }
    ensures prefix { StartsWith into.new.items into.old.items }
{
    put_stamp(key.stamp, into)?;
    into.push(b' ')?;
    model.put_name(alloc, key.dest, into)
}

/// A word that events tell, or its number where it has no text.
#[tactic(auto, unfolding(crate::specs::Texts::word_text))]
fn put_word<M: Model>(model: &M, number: u32, into: &mut Vec<u8>) -> Result<(), OutOfMemory>
    ensures ok { OnOk result (into.new.items ≡ into.old.items ++ word_text (M.meaning model.now) number) }
    ensures prefix { StartsWith into.new.items into.old.items }
{
    match model.word(number) {
        Some(text) => into.extend_from_slice(text.as_bytes())?,
        None => put_number(u64::from(number), into)?,
    }
    Ok(())
}

/// A word that events tell, between spaces.
pub fn put_spaced_word<M: Model>(
    model: &M,
    number: u32,
    into: &mut Vec<u8>,
) -> Result<(), OutOfMemory>
    ensures ok { OnOk result (into.new.items ≡ into.old.items ++ between_spaces (word_text (M.meaning model.now) number)) }
    ensures prefix { StartsWith into.new.items into.old.items }
{
    into.push(b' ')?;
    put_word(model, number, into)?;
    into.push(b' ')?;
    Ok(())
}

/// The word of a fault, or its code where it has no text. That of an endless chain is the simulation's.
#[tactic(auto, unfolding(crate::specs::Texts::fault_text))]
pub fn put_fault<M: Model>(model: &M, code: u32, into: &mut Vec<u8>) -> Result<(), OutOfMemory>
    ensures ok { OnOk result (into.new.items ≡ into.old.items ++ fault_text (M.meaning model.now) code) }
    ensures prefix { StartsWith into.new.items into.old.items }
{
    let word = match code {
        ENDLESS_CHAIN => Some("chain"),
        _ => model.fault(code),
    };
    match word {
        Some(text) => into.extend_from_slice(text.as_bytes())?,
        None => put_number(u64::from(code), into)?,
    }
    Ok(())
}
