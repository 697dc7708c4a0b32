//! The lines of events.
ghost use Rattle.std.specs.Prelude.{◌≡◌, ◌+◌, ◌<◌, ◌≤◌, ◌++◌, codes, take, vec_len, IfOk, OnOk, OnErr};
ghost use Rattle.std.specs.Io.{StartsWith};
ghost use Rattle.model_core.specs.SpacedWords.{between_spaces};
ghost use Rattle.sim_io.specs.Texts.{event_lines, part_line, stamp_text, word_text};

use crate::lines::cut_back;
use crate::lines::head::{Head, LINE};
use crate::lines::tail::{NUMBERS, TAIL, write_numbers};
use crate::lines::text_parts::put_spaced_word;
use crate::room::append;
use event_key::Key;
use model_core::model::{Model, NAME_ROOM};
use model_core::{Digits, OutOfMemory, Part};
use std::alloc::Global;

/// Writes the lines of events. It keeps the text of the last stamp, since the next event mostly has the same one.
#[derive(Drop)]
pub struct LineWriter {
    digits: Digits,
    head: Head,
}

impl LineWriter {
    /// A writer of lines. All the memory that it will ever have is taken here.
    pub fn new(alloc: Global) -> Result<LineWriter, OutOfMemory> {
        let digits = Digits::new(alloc)?;
        let head = Head::new(&digits, 0);
        Ok(LineWriter { digits, head })
    }

    /// Appends the lines of an event: one for each part of what it tells, in order. A refusal leaves what was there.
    pub fn put_done<M: Model>(
        &mut self,
        alloc: Global,
        model: &M,
        key: &Key,
        parts: &[Part],
        into: &mut Vec<u8>,
    ) -> Result<(), OutOfMemory>
        requires { key.now.dest < (M.meaning model.now).objects }
        ensures ok { OnOk result (into.new.items ≡ into.old.items ++ event_lines (M.meaning model.now) key.now parts.now) }
        ensures err { OnErr result (into.new.items ≡ into.old.items) }
    {
        let before = into.len();
        let outcome = self.put_lines(alloc, model, key, parts, into);
        cut_back(outcome, before, into)
    }

    fn put_lines<M: Model>(
        &mut self,
        alloc: Global,
        model: &M,
        key: &Key,
        parts: &[Part],
        into: &mut Vec<u8>,
    ) -> Result<(), OutOfMemory>
        requires { key.now.dest < (M.meaning model.now).objects }
        ensures ok { OnOk result (into.new.items ≡ into.old.items ++ event_lines (M.meaning model.now) key.now parts.now) }
        ensures prefix { StartsWith into.new.items into.old.items }
    {
        for part in parts {
            self.put_line(alloc, model, key, *part, into)?;
        }
        Ok(())
    }

    /// Appends the line of one part. Its own parts are written at their places, behind a copy of the head. A refusal may leave some
    /// of them.
    #[tactic(auto, unfolding(crate::specs::Texts::part_line, crate::specs::Texts::place_text, crate::specs::Texts::part_text))]
    pub fn put_line<M: Model>(
        &mut self,
        alloc: Global,
        model: &M,
        key: &Key,
        part: Part,
        into: &mut Vec<u8>,
    ) -> Result<(), OutOfMemory>
        requires { key.now.dest < (M.meaning model.now).objects }
        ensures ok { OnOk result (into.new.items ≡ into.old.items ++ part_line (M.meaning model.now) key.now part) }
        ensures prefix { StartsWith into.new.items into.old.items }
    {
        let name = self.begin(key.stamp, into)?;
        let word = self.put_name(alloc, model, key.dest, into, name)?;
        let numbers = self.put_word(model, part.word, into, word)?;
        let end = write_numbers(&self.digits, part, into, numbers);
        into.truncate(end);
        Ok(())
    }

    /// Appends a stamp and a space, and behind them room for the rest of a line. Answers the place of that.
    fn begin(&mut self, stamp: u64, into: &mut Vec<u8>) -> Result<usize, OutOfMemory>
        ensures text { IfOk result (λ at. take at into.new.items ≡ into.old.items ++ (stamp_text stamp ++ codes " ")) }
        ensures room { IfOk result (λ at. at + (NAME_ROOM + TAIL) ≤ vec_len into.new) }
        ensures prefix { StartsWith into.new.items into.old.items }
    {
        if self.head.stamp != stamp {
            self.head.rewrite(&self.digits, stamp);
        }
        let before = into.len();
        self.append_room(into)?;
        Ok(before + self.head.count)
    }

    /// Appends the head and what stands behind it.
    fn append_room(&self, into: &mut Vec<u8>) -> Result<(), OutOfMemory>
        ensures ok { OnOk result (into.new.items ≡ into.old.items ++ self.now.head.bytes) }
        ensures err { OnErr result (into.new.items ≡ into.old.items) }
    {
        into.reserve(LINE)?;
        append(&self.head.bytes, into);
        Ok(())
    }

    /// Appends room for the rest of a line. Answers the place where it begins.
    fn append_rest(&self, into: &mut Vec<u8>) -> Result<usize, OutOfMemory>
        ensures text { IfOk result (λ end. take end into.new.items ≡ into.old.items) }
        ensures room { IfOk result (λ end. end + LINE ≤ vec_len into.new) }
        ensures prefix { StartsWith into.new.items into.old.items }
    {
        let end = into.len();
        self.append_room(into)?;
        Ok(end)
    }

    /// Puts the name of an object at a place with room for it and for the tail of a line. Answers the place behind it,
    /// where there is still room for the tail.
    fn put_name<M: Model>(
        &self,
        alloc: Global,
        model: &M,
        object: u32,
        into: &mut Vec<u8>,
        at: usize,
    ) -> Result<usize, OutOfMemory>
        requires object { object < (M.meaning model.now).objects }
        requires room { at + (NAME_ROOM + TAIL) ≤ vec_len into.old }
        ensures text { IfOk result (λ end. take end into.new.items ≡ take at into.old.items ++ (M.meaning model.now).label object) }
        ensures room { IfOk result (λ end. end + TAIL ≤ vec_len into.new) }
        ensures prefix { StartsWith into.new.items (take at into.old.items) }
    {
        if let Some(end) = model.write_name(&self.digits, object, into, at) {
            return Ok(end);
        }
        into.truncate(at);
        model.put_name(alloc, object, into)?;
        self.append_rest(into)
    }

    /// Puts a word between spaces at a place with room for it and for the numbers of a line. Answers the place behind it,
    /// where there is still room for the numbers.
    #[tactic(auto, unfolding(crate::specs::Texts::word_text))]
    fn put_word<M: Model>(
        &self,
        model: &M,
        number: u32,
        into: &mut Vec<u8>,
        at: usize,
    ) -> Result<usize, OutOfMemory>
        requires room { at + TAIL ≤ vec_len into.old }
        ensures text { IfOk result (λ end. take end into.new.items
            ≡ take at into.old.items ++ between_spaces (word_text (M.meaning model.now) number)) }
        ensures room { IfOk result (λ end. end + NUMBERS ≤ vec_len into.new) }
        ensures prefix { StartsWith into.new.items (take at into.old.items) }
    {
        if let Some(end) = model.write_word(number, into, at) {
            return Ok(end);
        }
        into.truncate(at);
        put_spaced_word(model, number, into)?;
        self.append_rest(into)
    }
}
