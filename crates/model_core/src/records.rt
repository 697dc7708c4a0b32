//! What is told of events, one after another.
ghost use Rattle.std.specs.Prelude.{◌≡◌, ℕ, ◌+◌, ◌-◌, ◌*◌, ◌<◌, ◌≤◌, ◌==◌, [], ◌∷◌, ◌++◌, length, slice_get, vec_len, vec_capacity, Some, OnOk, OnErr, IsPermutation};
ghost use Rattle.event_key.specs.declared.key.Key.{Key};
ghost use Rattle.model_core.specs.declared.note.Note.{Note};
ghost use Rattle.model_core.specs.Records.{record_key};
ghost use Rattle.model_core.specs.Sorted.{AreSorted};

use crate::merging::merge;
use crate::note::{Note, Part};
use crate::record_head::RecordHead;
use delta_exchange::OutOfMemory;
use event_key::Key;
use std::alloc::Global;
use std::marker::Model;

/// How many parts a note has at most.
const NOTE_PARTS: usize = 4;

/// Records that are under way, each a key and what is told of its event. The parts of all of them stand in one list, so a
/// record takes what its note has. Contracts see the records, and for how many more there is room for certain.
#[derive(Debug, Drop)]
pub struct RecordBuffer {
    heads: Vec<RecordHead>,
    // the parts of all records, in their order
    parts: Vec<Part>,
    // for how many more records both lists have room
    room: usize,
}

impl Model for RecordBuffer {
    ghost use Rattle.model_core.specs.Records.{RecordsView, records_of, AreKept};

    ghost Value = { RecordsView };

    ghost view = { λ r. record { items = records_of r.heads.items r.parts.items; room = r.room } };

    ghost invariant = { λ r. AreKept r.heads r.parts r.room };
}

/// For how many more records these lists have room, with parts of others among them.
fn room_of(heads: &Vec<RecordHead>, parts: &Vec<Part>) -> usize
    ensures heads { result ≤ vec_capacity heads.now - vec_len heads.now }
    ensures parts { 4 * result ≤ vec_capacity parts.now - vec_len parts.now }
    ensures most { (most : ℕ) → vec_len heads.now + most ≤ vec_capacity heads.now → vec_len parts.now + 4 * most ≤ vec_capacity parts.now → most ≤ result }
{
    let for_heads = heads.capacity() - heads.len();
    let for_parts = parts.capacity() - parts.len();
    for_heads.min(for_parts / NOTE_PARTS)
}

impl RecordBuffer {
    /// No record, and no room.
    pub fn new(alloc: Global) -> RecordBuffer
        ensures { result.items ≡ [] }
    {
        RecordBuffer {
            heads: Vec::new(alloc),
            parts: Vec::new(alloc),
            room: 0,
        }
    }

    /// How many records there are.
    pub fn len(&self) -> usize
        ensures { result ≡ length self.now.items }
    {
        self.heads.len()
    }

    /// Whether there is none.
    pub fn is_empty(&self) -> bool
        ensures { result ≡ (length self.now.items == 0) }
    {
        self.heads.is_empty()
    }

    /// The record at a place, the first at place 0: its key, and its parts.
    pub fn at(&self, i: usize) -> (&Key, &[Part])
        requires { i < length self.now.items }
        ensures told { slice_get self.now.items i ≡ Some (result.0.now, result.1.now) }
        ensures few { length result.1.now ≤ 4 }
    {
        let head = &self.heads[i];
        let start = head.start as usize;
        let end = start + head.count as usize;
        (&head.key, &self.parts[start..end])
    }

    /// Makes room for so many records more.
    pub fn reserve(&mut self, records: usize) -> Result<(), OutOfMemory>
        ensures room { OnOk result (records ≤ self.new.room) }
        ensures same { self.new.items ≡ self.old.items }
    {
        if self.room >= records {
            return Ok(());
        }
        self.grow(records)
    }

    /// Finds room for so many records more.
    fn grow(&mut self, records: usize) -> Result<(), OutOfMemory>
        ensures room { OnOk result (records ≤ self.new.room) }
        ensures same { self.new.items ≡ self.old.items }
    {
        self.heads.reserve(records)?;
        // so many that their number is too large can't be had
        self.parts.reserve(records.saturating_mul(NOTE_PARTS))?;
        self.room = room_of(&self.heads, &self.parts);
        Ok(())
    }

    /// Puts a record behind the others, where there is room for it.
    pub fn push_reserved(&mut self, key: &Key, note: &Note)
        requires { 1 ≤ self.old.room }
        ensures items { self.new.items ≡ self.old.items ++ (key.now, note.now) ∷ [] }
        ensures room { self.new.room + 1 ≡ self.old.room }
    {
        let start = self.parts.len() as u64;
        let count = note.len() as u32;
        note.put_into(&mut self.parts);
        self.heads.push_reserved(RecordHead {
            key: *key,
            start,
            count,
        });
        self.room -= 1;
    }

    /// Puts a record behind the others. A refusal leaves them as they were.
    pub fn push(&mut self, key: &Key, note: &Note) -> Result<(), OutOfMemory>
        ensures ok { OnOk result (self.new.items ≡ self.old.items ++ (key.now, note.now) ∷ []) }
        ensures err { OnErr result (self.new.items ≡ self.old.items) }
    {
        self.reserve(1)?;
        self.push_reserved(key, note);
        Ok(())
    }

    /// Puts the record at a place of another buffer behind the others, where there is room for it.
    pub fn push_from(&mut self, other: &RecordBuffer, i: usize)
        requires room { 1 ≤ self.old.room }
        requires within { i < length other.now.items }
        ensures items { (told : Key × Note) → slice_get other.now.items i ≡ Some told → self.new.items ≡ self.old.items ++ told ∷ [] }
        ensures room { self.new.room + 1 ≡ self.old.room }
    {
        let (key, parts) = other.at(i);
        let start = self.parts.len() as u64;
        let count = parts.len() as u32;
        put_parts(parts, &mut self.parts);
        self.heads.push_reserved(RecordHead {
            key: *key,
            start,
            count,
        });
        self.room -= 1;
    }

    /// The records of two others as one list: their parts are copied, and their heads merged. Both are left empty.
    pub fn merge(
        &mut self,
        left: &mut RecordBuffer,
        right: &mut RecordBuffer,
    ) -> Result<(), OutOfMemory>
        requires empty { self.old.items ≡ [] }
        requires left { AreSorted record_key left.old.items }
        requires right { AreSorted record_key right.old.items }
        ensures permutes { OnOk result (IsPermutation (left.old.items ++ right.old.items) self.new.items) }
        ensures ordered { OnOk result (AreSorted record_key self.new.items) }
        ensures left { OnOk result (left.new.items ≡ []) }
        ensures right { OnOk result (right.new.items ≡ []) }
    {
        self.reserve(left.heads.len() + right.heads.len())?;
        let by = left.parts.len() as u64;
        merge(
            left.heads.as_slice(),
            right.heads.as_slice(),
            by,
            &mut self.heads,
        );
        copy_parts(left.parts.as_slice(), &mut self.parts);
        copy_parts(right.parts.as_slice(), &mut self.parts);
        self.room = room_of(&self.heads, &self.parts);
        left.clear();
        right.clear();
        Ok(())
    }

    /// Lets all records go, and keeps the room.
    pub fn clear(&mut self)
        ensures { self.new.items ≡ [] }
    {
        self.heads.clear();
        self.parts.clear();
        self.room = room_of(&self.heads, &self.parts);
    }
}

/// Appends parts to a list that has room for them.
fn put_parts(parts: &[Part], into: &mut Vec<Part>)
    requires { vec_len into.old + length parts.now ≤ vec_capacity into.old }
    ensures items { into.new.items ≡ into.old.items ++ parts.now }
    ensures capacity { vec_capacity into.new ≡ vec_capacity into.old }
{
    for part in parts {
        into.push_reserved(*part);
    }
}

/// Appends the parts of many records at once to a list that has room for them.
fn copy_parts(parts: &[Part], into: &mut Vec<Part>)
    requires { vec_len into.old + length parts.now ≤ vec_capacity into.old }
    ensures items { into.new.items ≡ into.old.items ++ parts.now }
    ensures capacity { vec_capacity into.old ≤ vec_capacity into.new }
{
    // takes no memory, since there is room
    let _ = into.extend_from_slice(parts);
}

/// Records in results, in their order.
#[derive(Debug, Drop)]
pub struct Records {
    buffer: RecordBuffer,
}

impl Model for Records {
    ghost use Rattle.std.specs.Prelude.{List};
    ghost use Rattle.event_key.specs.declared.key.Key.{Key};
    ghost use Rattle.model_core.specs.declared.note.Note.{Note};

    ghost Value = { List (Key × Note) };

    ghost view = { λ r. r.buffer.items };
}

impl Records {
    /// These records.
    pub fn new(buffer: RecordBuffer) -> Records
        ensures { result ≡ buffer.items }
    {
        Records { buffer }
    }

    /// The records, to read.
    pub fn as_buffer(&self) -> &RecordBuffer
        ensures { result.now.items ≡ self.now }
    {
        &self.buffer
    }

    /// The records, with the room that they have.
    pub fn into_buffer(self) -> RecordBuffer
        ensures { result.items ≡ self }
    {
        let Records { buffer } = self;
        buffer
    }
}
