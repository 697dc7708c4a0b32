//! The totals of a simulation.
ghost use Rattle.std.specs.Prelude.{◌≡◌, ◌<◌, ◌≤◌, ◌+◌, ◌++◌, ◌∷◌, [], ℕ, List, get_or, length, IfOk};
ghost use Rattle.event_key.specs.declared.key.Key.{Key};
ghost use Rattle.event_key.specs.Stamps.{time_part};
ghost use Rattle.model_core.specs.declared.note.Note.{Note};

use crate::sums::Sums;
use event_key::{Key, time_of};
use model_core::{OutOfMemory, Part};
use std::alloc::Global;
use std::marker::Model;

/// The sums of each object of a model over the records of a simulation, kept as the records come.
#[derive(Drop)]
pub struct Totals {
    objects: Vec<Sums>,
    records: u64,
    last: u64,
}

impl Model for Totals {
    ghost use Rattle.std.specs.Prelude.{◌*◌, ◌≤◌, All};
    ghost use Rattle.sim_stats.specs.declared.sums.Sums.{Sums};
    ghost use Rattle.sim_stats.specs.Sums.{IsWithin};
    ghost use Rattle.sim_stats.specs.Totals.{Summed};

    ghost Value = { Summed };

    ghost view = { λ totals. record { objects = totals.objects.items; records = totals.records; last = totals.last } };

    ghost invariant = { λ totals. All (λ (sums : Sums). IsWithin (4 * totals.records) sums × (sums.last ≤ totals.last)) totals.objects.items };
}

impl Totals {
    ghost use Rattle.sim_stats.specs.Totals.{totals_of};
    ghost use Rattle.model_core.specs.declared.limits.TheConstants.{MOST_EVENTS};

    /// The totals of no record, for a model with so many objects.
    pub fn new(alloc: Global, objects: u32) -> Result<Totals, OutOfMemory>
        ensures totals { IfOk result (λ totals. totals ≡ totals_of objects []) }
        ensures objects { IfOk result (λ totals. length totals.objects ≡ objects) }
        ensures records { IfOk result (λ totals. totals.records ≡ 0) }
        ensures last { IfOk result (λ totals. totals.last ≡ 0) }
    {
        Ok(Totals {
            objects: vec![in alloc; Sums::none(); objects as usize]?,
            records: 0,
            last: 0,
        })
    }

    /// One record more, of at most four parts, at an object that there is, and not before the record that was added last.
    /// It takes no memory, and time for its own parts alone.
    pub fn add(&mut self, key: &Key, parts: &[Part])
        requires object { key.now.dest < length self.old.objects }
        requires few { length parts.now ≤ 4 }
        requires time { self.old.last ≤ time_part key.now.stamp }
        requires room { self.old.records < MOST_EVENTS }
        ensures totals { (objects : ℕ) (records : List (Key × Note)) → self.old ≡ totals_of objects records
            → self.new ≡ totals_of objects (records ++ (key.now, parts.now) ∷ []) }
        ensures objects { length self.new.objects ≡ length self.old.objects }
        ensures records { self.new.records ≡ self.old.records + 1 }
        ensures last { self.new.last ≡ time_part key.now.stamp }
    {
        let time = time_of(key.stamp);
        let sums = &mut self.objects[key.dest as usize];
        sums.add(time, parts);
        self.records += 1;
        self.last = time;
    }

    /// What is summed up of an object.
    pub fn of_object(&self, object: u32) -> &Sums
        requires { object < length self.now.objects }
        ensures { result.now ≡ get_or self.now.objects object result.now }
    {
        &self.objects[object as usize]
    }
}
