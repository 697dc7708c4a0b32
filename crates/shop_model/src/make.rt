//! A class makes jobs.
ghost use Rattle.std.specs.Prelude.{◌≡◌, ◌<◌, ◌≤◌, ◌+◌, ◌^◌, ◌++◌, [], IsTrue, IfSome, length};
ghost use Rattle.std.specs.Option.{ForSome};
ghost use Rattle.model_core.specs.Effects.{blank};
ghost use Rattle.model_core.specs.Places.{place_changes};
ghost use Rattle.random_streams.specs.Delays.{is_delay_law};
ghost use Rattle.shop_model.specs.Sites.{place_of, drawn_or};
ghost use Rattle.shop_model.specs.Classes.{made_jobs, pause_drawn, arrival_of, next_arrival, one_made, make_effect};

use crate::class::{Class, INSIDE, MADE};
use crate::class_event::ClassEvent;
use crate::job::{JOBS_A_CLASS, Job};
use crate::own_event::{OwnEvent, is_in_turn};
use crate::site::{Site, told};
use model_core::{Change, Effect, MADE_WORD, keep_place};
use random_streams::{DelayLaw, Stream};

/// What an arrival brings: how many jobs, and after how long the next arrival comes, where it was drawn.
#[derive(Clone, Copy)]
pub struct Arrival {
    pub jobs: u64,
    pub pause: Option<u64>,
}

impl ClassEvent<'_> {
    /// Makes a job of an arrival, and the others of it after that.
    #[tactic(auto, unfolding(crate::specs::Classes::make_effect))]
    pub(crate) fn make(&self, words: &mut Stream, sheet: &mut Effect)
        requires { sheet.old ≡ blank }
        ensures { let at = self.now in
            sheet.new ≡ make_effect at.site at.routes.now at.class.now at.cells.now.contents at.event.now }
    {
        let made = self.cells.word(MADE);
        if made < u64::from(self.class.count) {
            let arrival = self.arrival(words, sheet);
            if arrival.jobs > 0 {
                self.make_one(arrival.jobs, sheet);
                self.class
                    .arrive_again(self.site, made + 1, arrival.pause, sheet);
            } else {
                self.class
                    .arrive_again(self.site, made, arrival.pause, sheet);
            }
        }
    }

    /// What the arrival of an event brings.
    #[tactic(auto, unfolding(crate::specs::Classes::arrival_of))]
    fn arrival(&self, words: &mut Stream, sheet: &mut Effect) -> Arrival
        requires { sheet.old ≡ blank }
        ensures arrival { let at = self.now in result ≡ (arrival_of at.site at.class.now at.cells.now.contents at.event.now).0 }
        ensures bounded { IfSome result.pause (λ pause. pause ≤ 2 ^ 40) }
        ensures few { length sheet.new.changes ≤ 1 }
        ensures sheet { let at = self.now in sheet.new ≡ record blank {
          changes = place_changes (place_of at.cells.now.contents) (arrival_of at.site at.class.now at.cells.now.contents at.event.now).1;
        } }
    {
        let place = self.cells.word(0);
        words.move_to(self.site.seed, self.site.object, place);
        let left = self.event.a;
        let arrival = if left == 0 {
            self.class.new_arrival(words, self.event.b)
        } else {
            Arrival {
                jobs: left,
                pause: None,
            }
        };
        keep_place(&mut sheet.changes, place, words.place());
        arrival
    }

    /// Makes a job, and leaves the others of its arrival for the next step of the tick.
    #[tactic(auto, unfolding(crate::specs::Classes::one_made))]
    fn make_one(&self, jobs: u64, sheet: &mut Effect)
        requires left { made_jobs self.now.cells.now.contents < self.now.class.now.count }
        requires some { 0 < jobs }
        requires changes { length sheet.old.changes ≤ 1 }
        requires sends { sheet.old.sends ≡ [] }
        ensures few { length sheet.new.sends ≤ 2 }
        ensures sheet { let at = self.now in let one = one_made at.site at.routes.now at.class.now at.cells.now.contents jobs in
            sheet.new ≡ record one { changes = sheet.old.changes ++ one.changes } }
    {
        let number = self.cells.word(MADE) + 1;
        let inside = self.cells.word(INSIDE) + 1;
        let class = self.site.object - self.routes.stations;
        let job = Job {
            class,
            step: 0,
            id: u64::from(class) * JOBS_A_CLASS + number,
        };
        sheet.changes.push(Change::Set {
            word: MADE,
            value: number,
        });
        sheet.changes.push(Change::Set {
            word: INSIDE,
            value: inside,
        });
        sheet.sends.push(self.routes.to(job, self.site.tick, 0, 0));
        if jobs > 1 && number < u64::from(self.class.count) {
            let others = OwnEvent::MakeRest { jobs: jobs - 1 };
            sheet.sends.push(self.site.to_self(0, others));
        }
        sheet.note = told(MADE_WORD, job.id, inside);
    }
}

impl Class {
    /// How many jobs a new arrival brings, and when the next one comes, where this event begins it.
    fn new_arrival(&self, words: &mut Stream, b: u64) -> Arrival
        requires batch { ForSome self.now.batch (λ law. IsTrue (is_delay_law law)) }
        requires every { ForSome self.now.every (λ law. IsTrue (is_delay_law law)) }
        ensures jobs { result.jobs ≡ (drawn_or 1 words.old self.now.batch).0 }
        ensures pause { result.pause ≡ (pause_drawn (record words.old { place = (drawn_or 1 words.old self.now.batch).1 }) self.now.every b).0 }
        ensures bounded { IfSome result.pause (λ pause. pause ≤ 2 ^ 40) }
        ensures place { words.new ≡ record words.old {
          place = (pause_drawn (record words.old { place = (drawn_or 1 words.old self.now.batch).1 }) self.now.every b).1;
        } }
    {
        let jobs = drawn_or(words, &self.batch, 1);
        let pause = drawn_pause(words, &self.every, b);
        Arrival { jobs, pause }
    }

    /// Sends the next arrival, where it was drawn, comes in time, and a job is left after so many.
    fn arrive_again(&self, site: Site, made: u64, pause: Option<u64>, sheet: &mut Effect)
        requires tick { site.tick < 2 ^ 46 }
        requires bounded { IfSome pause (λ pause. pause ≤ 2 ^ 40) }
        requires room { length sheet.old.sends ≤ 2 }
        ensures { sheet.new ≡ record sheet.old { sends = sheet.old.sends ++ next_arrival site self.now made pause } }
    {
        if let Some(pause) = pause {
            if made < u64::from(self.count) && site.tick + pause <= self.until {
                sheet
                    .sends
                    .push(site.to_self(pause, OwnEvent::ArriveInTurn));
            }
        }
    }
}

/// What the law gives at the place of the stream, or this value where there is no law.
fn drawn_or(words: &mut Stream, law: &Option<DelayLaw>, default: u64) -> u64
    requires { ForSome law.now (λ law. IsTrue (is_delay_law law)) }
    ensures value { result ≡ (drawn_or default words.old law.now).0 }
    ensures place { words.new ≡ record words.old { place = (drawn_or default words.old law.now).1 } }
{
    match law {
        Some(law) => words.draw_delay(law),
        None => default,
    }
}

/// The ticks to the next arrival, drawn where the event begins the next one and there is a law for it.
fn drawn_pause(words: &mut Stream, every: &Option<DelayLaw>, b: u64) -> Option<u64>
    requires { ForSome every.now (λ law. IsTrue (is_delay_law law)) }
    ensures value { result ≡ (pause_drawn words.old every.now b).0 }
    ensures bounded { IfSome result (λ pause. pause ≤ 2 ^ 40) }
    ensures place { words.new ≡ record words.old { place = (pause_drawn words.old every.now b).1 } }
{
    match every {
        Some(law) if is_in_turn(b) => Some(words.draw_delay(law)),
        _ => None,
    }
}
