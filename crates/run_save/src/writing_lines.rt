//! Writing the lines of a state text. Each call appends a text; where memory runs out, it may have appended some of it.
ghost use Rattle.std.specs.Prelude.{◌≡◌, ◌<◌, ◌^◌, ◌++◌, length, codes, OnOk};
ghost use Rattle.std.specs.List.{AllByRecursion, flat_map};
ghost use Rattle.std.specs.Io.{StartsWith};
ghost use Rattle.delta_exchange.specs.Changes.{line_of};
ghost use Rattle.run_save.specs.SavedLaws.{FitsCells, FitsEvent, FitsKey, FitsObject, IsLine};
ghost use Rattle.run_save.specs.StateTexts.{field_text, counted_text, named_text, object_text, key_text, event_text};

use event_key::Key;
use model_core::{Cells, Event, OutOfMemory};
use sim_io::{put_number, put_stamp};
use sim_spec::ObjectState;

/// A space and a number.
#[tactic(auto, unfolding(crate::specs::StateTexts::field_text))]
fn put_field(number: u64, into: &mut Vec<u8>) -> Result<(), OutOfMemory>
    ensures ok { OnOk result (into.new.items ≡ into.old.items ++ field_text number) }
    ensures prefix { StartsWith into.new.items into.old.items }
    ensures fits { number < 2 ^ 64 }
{
    into.push(b' ')?;
    put_number(number, into)
}

/// A line of a word and a number.
#[tactic(auto, unfolding(crate::specs::StateTexts::named_text))]
pub(crate) fn put_named(word: &[u8], number: u64, into: &mut Vec<u8>) -> Result<(), OutOfMemory>
    ensures ok { OnOk result (into.new.items ≡ into.old.items ++ named_text word.now number) }
    ensures prefix { StartsWith into.new.items into.old.items }
{
    into.extend_from_slice(word)?;
    put_field(number, into)?;
    into.push(b'\n')?;
    Ok(())
}

/// How many words there are, and the words.
#[tactic(auto, unfolding(crate::specs::StateTexts::counted_text))]
fn put_words(cells: &Cells, into: &mut Vec<u8>) -> Result<(), OutOfMemory>
    ensures ok { OnOk result (into.new.items ≡ into.old.items ++ counted_text cells.now.contents.words) }
    ensures prefix { StartsWith into.new.items into.old.items }
    ensures fits { OnOk result (IsLine cells.now.contents.words) }
{
    put_field(u64::from(cells.words()), into)?;
    for i in 0..cells.words() {
        put_field(cells.word(i), into)?;
    }
    Ok(())
}

/// How many values a line has, and the values.
#[tactic(auto, unfolding(crate::specs::StateTexts::counted_text))]
fn put_line(cells: &Cells, line: u32, into: &mut Vec<u8>) -> Result<(), OutOfMemory>
    requires { line < length cells.now.contents.lines }
    ensures ok { OnOk result (into.new.items ≡ into.old.items ++ counted_text (line_of cells.now.contents line)) }
    ensures prefix { StartsWith into.new.items into.old.items }
    ensures fits { OnOk result (IsLine (line_of cells.now.contents line)) }
{
    put_field(cells.line_len(line) as u64, into)?;
    for i in 0..cells.line_len(line) {
        put_field(cells.line_at(line, i), into)?;
    }
    Ok(())
}

/// How many lines of values there are, and the lines.
fn put_lines(cells: &Cells, into: &mut Vec<u8>) -> Result<(), OutOfMemory>
    ensures ok { OnOk result (into.new.items ≡ into.old.items
        ++ (field_text (length cells.now.contents.lines) ++ flat_map counted_text cells.now.contents.lines)) }
    ensures prefix { StartsWith into.new.items into.old.items }
    ensures few { OnOk result (length cells.now.contents.lines < 2 ^ 64) }
    ensures fits { OnOk result (AllByRecursion IsLine cells.now.contents.lines) }
{
    put_field(u64::from(cells.lines()), into)?;
    for line in 0..cells.lines() {
        put_line(cells, line, into)?;
    }
    Ok(())
}

/// The words and the lines of values.
fn put_cells(cells: &Cells, into: &mut Vec<u8>) -> Result<(), OutOfMemory>
    ensures ok { OnOk result (into.new.items ≡ into.old.items ++ (counted_text cells.now.contents.words
        ++ (field_text (length cells.now.contents.lines) ++ flat_map counted_text cells.now.contents.lines))) }
    ensures prefix { StartsWith into.new.items into.old.items }
    ensures fits { OnOk result (FitsCells cells.now.contents) }
{
    put_words(cells, into)?;
    put_lines(cells, into)
}

/// The line of an object.
#[tactic(auto, unfolding(crate::specs::StateTexts::object_text))]
fn put_object(object: &ObjectState, into: &mut Vec<u8>) -> Result<(), OutOfMemory>
    ensures ok { OnOk result (into.new.items ≡ into.old.items ++ object_text object.now) }
    ensures prefix { StartsWith into.new.items into.old.items }
    ensures fits { OnOk result (FitsObject object.now) }
{
    into.extend_from_slice(b"object")?;
    put_field(object.sent, into)?;
    put_cells(&object.cells, into)?;
    into.push(b'\n')?;
    Ok(())
}

/// How many objects there are, and their lines.
pub(crate) fn put_objects(objects: &[ObjectState], into: &mut Vec<u8>) -> Result<(), OutOfMemory>
    ensures ok { OnOk result (into.new.items ≡ into.old.items
        ++ (named_text (codes "objects") (length objects.now) ++ flat_map object_text objects.now)) }
    ensures prefix { StartsWith into.new.items into.old.items }
    ensures fits { OnOk result (AllByRecursion FitsObject objects.now) }
{
    put_named(b"objects", objects.len() as u64, into)?;
    for object in objects {
        put_object(object, into)?;
    }
    Ok(())
}

/// The key of an event.
#[tactic(auto, unfolding(crate::specs::StateTexts::key_text))]
fn put_key(key: &Key, into: &mut Vec<u8>) -> Result<(), OutOfMemory>
    ensures ok { OnOk result (into.new.items ≡ into.old.items ++ key_text key.now) }
    ensures prefix { StartsWith into.new.items into.old.items }
    ensures fits { OnOk result (FitsKey key.now) }
{
    put_stamp(key.stamp, into)?;
    put_field(u64::from(key.rank), into)?;
    put_field(u64::from(key.dest), into)?;
    put_field(u64::from(key.src), into)?;
    put_field(key.serial, into)
}

/// What an event is, its two numbers, and the end of its line.
fn put_body(event: &Event, into: &mut Vec<u8>) -> Result<(), OutOfMemory>
    ensures ok { OnOk result (into.new.items ≡ into.old.items
        ++ (field_text event.now.kind ++ (field_text event.now.a ++ (field_text event.now.b ++ codes "\n")))) }
    ensures prefix { StartsWith into.new.items into.old.items }
    ensures kind { OnOk result (event.now.kind < 2 ^ 32) }
    ensures a { OnOk result (event.now.a < 2 ^ 64) }
    ensures b { OnOk result (event.now.b < 2 ^ 64) }
{
    put_field(u64::from(event.kind), into)?;
    put_field(event.a, into)?;
    put_field(event.b, into)?;
    into.push(b'\n')?;
    Ok(())
}

/// The line of an event.
#[tactic(auto, unfolding(crate::specs::StateTexts::event_text))]
fn put_event(event: &Event, into: &mut Vec<u8>) -> Result<(), OutOfMemory>
    ensures ok { OnOk result (into.new.items ≡ into.old.items ++ event_text event.now) }
    ensures prefix { StartsWith into.new.items into.old.items }
    ensures fits { OnOk result (FitsEvent event.now) }
{
    into.extend_from_slice(b"event ")?;
    put_key(&event.key, into)?;
    put_body(event, into)
}

/// How many events there are, and their lines.
pub(crate) fn put_events(events: &[Event], into: &mut Vec<u8>) -> Result<(), OutOfMemory>
    ensures ok { OnOk result (into.new.items ≡ into.old.items
        ++ (named_text (codes "events") (length events.now) ++ flat_map event_text events.now)) }
    ensures prefix { StartsWith into.new.items into.old.items }
    ensures few { OnOk result (length events.now < 2 ^ 64) }
    ensures fits { OnOk result (AllByRecursion FitsEvent events.now) }
{
    put_named(b"events", events.len() as u64, into)?;
    for event in events {
        put_event(event, into)?;
    }
    Ok(())
}

/// The length of a model, and its bytes.
pub(crate) fn put_model(model: &[u8], into: &mut Vec<u8>) -> Result<(), OutOfMemory>
    ensures ok { OnOk result (into.new.items ≡ into.old.items ++ (named_text (codes "model") (length model.now) ++ model.now)) }
    ensures prefix { StartsWith into.new.items into.old.items }
{
    put_named(b"model", model.len() as u64, into)?;
    into.extend_from_slice(model)?;
    Ok(())
}
