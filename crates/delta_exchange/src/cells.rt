//! The state of an object: words, and lines of values.
ghost use Rattle.std.specs.Prelude.{◌≡◌, ◌<◌, ◌≤◌, ◌^◌, ℕ, true, List, [], length, slice_index};
ghost use Rattle.std.specs.Prelude.{map, take, drop, reverse, IfOk, OnOk};
ghost use Rattle.delta_exchange.specs.Changes.{line_of, Fits, cells_after, inverse_of};
ghost use Rattle.delta_exchange.specs.Changes.{AllFit, cells_after_all, inverses_of};
ghost use Rattle.delta_exchange.specs.Spares.{FindsRoom, spare_after, AllFindRoom, spare_after_all};
ghost use Rattle.delta_exchange.specs.Spares.{puts_in_at, room_for, HaveRoom, NamesLine, NameLines};
ghost use Rattle.delta_exchange.specs.Spares.{NoneFell, HasSpares};
ghost use Rattle.delta_exchange.specs.Undoing.{UndoRestores, view_after_all};
ghost use Rattle.delta_exchange.specs.Views.{unspared};
ghost use Rattle.delta_exchange.specs.declared.change.Change.{Change};

use crate::change::Change;
use crate::line::Line;
use crate::memory::OutOfMemory;
use crate::words::Words;
use std::alloc::{AllocError, Global};
use std::marker::Model;

/// The words and the lines of an object, fewer than 2^32 of each. Contracts see beside each line its
/// spare: for how many more values it has room for certain.
#[derive(Drop)]
pub struct Cells {
    words: Words,
    lines: Vec<Line>,
}

impl Model for Cells {
    ghost use Rattle.std.specs.Prelude.{map, length, ◌<◌, ◌^◌};
    ghost use Rattle.delta_exchange.specs.Views.{CellsView};

    ghost Value = { CellsView };

    ghost view = { λ cells. record {
      contents = record { words = cells.words; lines = map (λ line. line.values) cells.lines.items };
      spare = map (λ line. line.spare) cells.lines.items;
    } };

    ghost invariant = { λ cells. (length cells.words < 2 ^ 32) × (length cells.lines.items < 2 ^ 32) };
}

impl Cells {
    /// These words and lines, with no spare.
    pub fn new(alloc: Global, words: Vec<u64>, lines: Vec<Vec<u64>>) -> Result<Cells, OutOfMemory>
        requires words { length words.items < 2 ^ 32 }
        requires lines { length lines.items < 2 ^ 32 }
        ensures words { IfOk result (λ cells. cells.contents.words ≡ words.items) }
        ensures lines { IfOk result (λ cells. cells.contents.lines ≡ map (λ line. line.items) lines.items) }
        ensures spare { IfOk result (λ cells. cells.spare ≡ map (λ _. 0) lines.items) }
        ensures spares { IfOk result HasSpares }
    {
        let lines = lines_of(alloc, lines)?;
        Ok(Cells {
            words: Words::new(words),
            lines,
        })
    }

    /// These words, and no lines. No memory is taken for up to four words.
    pub fn of_words(alloc: Global, words: &[u64]) -> Result<Cells, OutOfMemory>
        requires { length words.now < 2 ^ 32 }
        ensures contents { IfOk result (λ cells. cells.contents ≡ record { words = words.now; lines = [] }) }
        ensures spare { IfOk result (λ cells. cells.spare ≡ []) }
        ensures spares { IfOk result HasSpares }
    {
        Ok(Cells {
            words: Words::of(alloc, words)?,
            lines: Vec::new(alloc),
        })
    }

    /// The same words and lines, with no spare.
    pub fn copy(&self, alloc: Global) -> Result<Cells, OutOfMemory>
        ensures contents { IfOk result (λ copy. copy.contents ≡ self.now.contents) }
        ensures spare { IfOk result (λ copy. copy.spare ≡ map (λ _. 0) self.now.contents.lines) }
        ensures spares { IfOk result HasSpares }
    {
        let words = self.words.copy(alloc)?;
        let lines = copies_of(alloc, &self.lines)?;
        Ok(Cells { words, lines })
    }

    /// How many words there are.
    pub fn words(&self) -> u32
        ensures { result ≡ length self.now.contents.words }
    {
        self.words.len()
    }

    /// How many lines there are.
    pub fn lines(&self) -> u32
        ensures { result ≡ length self.now.contents.lines }
    {
        self.lines.len() as u32
    }

    /// The value of a word.
    pub fn word(&self, word: u32) -> u64
        requires { word < length self.now.contents.words }
        ensures { result ≡ slice_index self.now.contents.words word }
    {
        self.words.at(word)
    }

    /// How many values a line holds.
    pub fn line_len(&self, line: u32) -> usize
        requires { line < length self.now.contents.lines }
        ensures { result ≡ length (line_of self.now.contents line) }
    {
        let line = &self.lines[line as usize];
        line.len()
    }

    /// The value at a place of a line, the first at place 0.
    pub fn line_at(&self, line: u32, place: usize) -> u64
        requires line { line < length self.now.contents.lines }
        requires place { place < length (line_of self.now.contents line) }
        ensures { result ≡ slice_index (line_of self.now.contents line) place }
    {
        let line = &self.lines[line as usize];
        line.at(place)
    }

    /// Makes room for the values that the changes put in, so that doing them takes no memory. Asks for
    /// memory at most once a line, and for twice as much each time, so that many calls cost no more
    /// than the values that they make room for. After an `Err` the lines that were seen to keep their room.
    #[inline(always)]
    pub fn room(&mut self, changes: &[Change]) -> Result<(), OutOfMemory>
        requires { NameLines changes.now self.old.contents }
        ensures ok { OnOk result (HaveRoom changes.now self.new.spare) }
        ensures same { self.new.contents ≡ self.old.contents }
        ensures none_fell { NoneFell self.old.spare self.new.spare }

        // Whatever found room before still finds it.
        ensures kept { (others : List Change) → AllFindRoom others self.old.spare
            → AllFindRoom others self.new.spare }
        ensures spares { HasSpares self.new }
    {
        // Opens the cells, so that the proof knows that each line has its spare.
        let _ = &self.words;
        for change in changes {
            self.room_at(change, changes)?;
        }
        Ok(())
    }

    /// Makes the room that the changes need at the line where one of them puts a value in. It is room for as many values as
    /// there are changes, so that nothing is counted.
    #[inline(always)]
    fn room_at(&mut self, change: &Change, changes: &[Change]) -> Result<(), OutOfMemory>
        requires { NamesLine change.now self.old.contents }
        ensures ok { OnOk result ((line : ℕ) → puts_in_at change.now line ≡ true
            → room_for changes.now line ≤ slice_index self.new.spare line) }
        ensures same { self.new.contents ≡ self.old.contents }
        ensures none_fell { NoneFell self.old.spare self.new.spare }
    {
        match *change {
            Change::Push { line, .. } | Change::Unpop { line, .. } => {
                self.reserve(line, changes.len())
            }
            _ => Ok(()),
        }
    }

    /// Makes the spare of a line at least this many.
    #[inline(always)]
    fn reserve(&mut self, line: u32, places: usize) -> Result<(), OutOfMemory>
        requires { line < length self.old.contents.lines }
        ensures ok { OnOk result (places ≤ slice_index self.new.spare line) }
        ensures same { self.new.contents ≡ self.old.contents }
        ensures none_fell { NoneFell self.old.spare self.new.spare }
    {
        let line = &mut self.lines[line as usize];
        line.reserve(places)?;
        Ok(())
    }

    /// Does a change and turns it into its inverse, in constant time and with no memory.
    #[inline(always)]
    pub fn exchange(&mut self, change: &mut Change)
        requires fits { Fits change.old self.old.contents }
        requires room { FindsRoom change.old self.old.spare }
        ensures cells { self.new.contents ≡ cells_after change.old self.old.contents }
        ensures spare { self.new.spare ≡ spare_after change.old self.old.spare }
        ensures change { change.new ≡ inverse_of change.old self.old.contents }
        ensures spares { HasSpares self.new }
    {
        match *change {
            Change::Set { word, value } => {
                let before = self.words.at(word);
                self.words.set(word, value);
                *change = Change::Set {
                    word,
                    value: before,
                };
            }
            Change::Push { line, value } => {
                let queue = &mut self.lines[line as usize];
                queue.push_back(value);
                *change = Change::Unpush { line };
            }
            Change::Pop { line } => {
                let queue = &mut self.lines[line as usize];
                let value = queue.pop_front();
                *change = Change::Unpop { line, value };
            }
            Change::Unpush { line } => {
                let queue = &mut self.lines[line as usize];
                let value = queue.pop_back();
                *change = Change::Push { line, value };
            }
            Change::Unpop { line, value } => {
                let queue = &mut self.lines[line as usize];
                queue.push_front(value);
                *change = Change::Pop { line };
            }
            // This change is its own inverse.
            Change::Flip { line, place } => {
                let queue = &mut self.lines[line as usize];
                queue.flip(place as usize);
            }
        }
    }

    /// Exchanges the changes from the first to the last. After `room` this takes no memory.
    pub fn apply(&mut self, changes: &mut [Change])
        requires fit { AllFit changes.old self.old.contents }
        requires room { HaveRoom changes.old self.old.spare }
        ensures cells { self.new.contents ≡ cells_after_all changes.old self.old.contents }
        ensures spare { self.new.spare ≡ spare_after_all changes.old self.old.spare }
        ensures changes { changes.new ≡ inverses_of changes.old self.old.contents }
        ensures spares { HasSpares self.new }

        // What undoing them all restores, and what undoing all but the first ones does.
        ensures undo { UndoRestores changes.new self.new changes.old self.old }
        ensures undo_last { (kept : ℕ) → UndoRestores (drop kept changes.new) self.new
            (drop kept changes.old) (view_after_all (take kept changes.old) self.old) }
    {
        // Opens the cells, so that the proof knows that each line has its spare.
        let _ = &self.words;
        for change in changes.iter_mut() {
            self.exchange(change);
        }
    }

    /// Does the changes from the first to the last, and keeps nothing to undo them. After `room` this takes no memory.
    #[inline(always)]
    pub fn make(&mut self, changes: &[Change])
        requires fit { AllFit changes.now self.old.contents }
        requires room { HaveRoom changes.now self.old.spare }
        ensures cells { self.new.contents ≡ cells_after_all changes.now self.old.contents }
        ensures spare { self.new.spare ≡ spare_after_all changes.now self.old.spare }
        ensures spares { HasSpares self.new }
    {
        // Opens the cells, so that the proof knows that each line has its spare.
        let _ = &self.words;
        for change in changes {
            let mut done = *change;
            self.exchange(&mut done);
        }
    }

    /// Exchanges the changes from the last to the first. What `apply` made of a list can be undone, with
    /// no memory, which gives back the list, the cells and the spares.
    pub fn undo(&mut self, changes: &mut [Change])
        requires fit { AllFit (reverse changes.old) self.old.contents }
        requires room { AllFindRoom (reverse changes.old) self.old.spare }
        ensures cells { self.new.contents ≡ cells_after_all (reverse changes.old) self.old.contents }
        ensures spare { self.new.spare ≡ spare_after_all (reverse changes.old) self.old.spare }
        ensures changes { changes.new ≡ reverse (inverses_of (reverse changes.old) self.old.contents) }
        ensures spares { HasSpares self.new }
    {
        // Opens the cells, so that the proof knows that each line has its spare.
        let _ = &self.words;
        for at in (0..changes.len()).rev() {
            self.exchange(&mut changes[at]);
        }
    }
}

/// Lines of the same values, with no spare.
fn copies_of(alloc: Global, lines: &[Line]) -> Result<Vec<Line>, AllocError>
    ensures { IfOk result (λ copies. copies.items ≡ map (λ line. unspared line.values) lines.now) }
{
    let mut copies = Vec::with_capacity(alloc, lines.len())?;
    for line in lines {
        copies.push(line.copy()?)?;
    }
    Ok(copies)
}

/// Each list as a line with no spare.
fn lines_of(alloc: Global, lines: Vec<Vec<u64>>) -> Result<Vec<Line>, AllocError>
    ensures { IfOk result (λ made. made.items ≡ map (λ line. unspared line.items) lines.items) }
{
    lines
        .into_iter()
        .map(|line| Line::from_vec(line))
        .collect(alloc)
}
