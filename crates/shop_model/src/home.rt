//! A job comes to its class: for a delay, a branch, or its end.
ghost use Rattle.std.specs.Prelude.{◌≡◌, ◌<◌, ◌≤◌, ◌+◌, ◌++◌, IsTrue, length, slice_index};
ghost use Rattle.model_core.specs.Effects.{blank};
ghost use Rattle.random_streams.specs.Delays.{is_delay_law};
ghost use Rattle.shop_model.specs.declared.class.TheConstants.{MOST_STEPS};
ghost use Rattle.shop_model.specs.Parts.{IsBranch};
ghost use Rattle.shop_model.specs.Routes.{HasJob, step_at};
ghost use Rattle.shop_model.specs.Classes.{come_home, leave_effect, stay_effect, go_effect, overdue};

use crate::class::{Class, INSIDE};
use crate::class_event::ClassEvent;
use crate::job::{BirthCode, Job};
use crate::site::told;
use crate::step::{Branch, Step};
use model_core::{
    Change, DELAYED_WORD, DROPPED_WORD, Effect, LEFT_WORD, Note, OVERDUE_WORD, Part, WENT_WORD,
    keep_place,
};
use random_streams::{DelayLaw, Stream, choose_by};

impl ClassEvent<'_> {
    /// A job comes that stands here at its step.
    pub(crate) fn come(&self, words: &mut Stream, job: Job, sheet: &mut Effect)
        requires job { HasJob self.now.routes.now job }
        requires blank { sheet.old ≡ blank }
        ensures { let at = self.now in
            sheet.new ≡ come_home at.site at.routes.now at.class.now (step_at at.routes.now job.class job.step) job
            at.cells.now.contents at.event.now }
    {
        match self.routes.step(job.class, job.step) {
            Some(Step::Delay { law }) => self.stay(words, law, job, sheet),
            Some(Step::Go(branch)) => self.go_to_drawn_step(words, branch, job, sheet),
            Some(_) => {}
            None => self.leave(job, sheet),
        }
    }

    /// A job leaves, or is given up.
    #[tactic(auto, unfolding(crate::specs::Classes::leave_effect))]
    fn leave(&self, job: Job, sheet: &mut Effect)
        requires { sheet.old ≡ blank }
        ensures { let at = self.now in sheet.new ≡ leave_effect at.site at.class.now job at.cells.now.contents at.event.now }
    {
        let inside = self.cells.word(INSIDE);
        if inside > 0 {
            sheet.changes.push(Change::Set {
                word: INSIDE,
                value: inside - 1,
            });
        }
        let birth = BirthCode { word: self.event.b }.birth();
        let age = self.site.tick.saturating_sub(birth);
        if job.step as usize > self.class.route.as_slice().len() {
            sheet.note = told(DROPPED_WORD, job.id, age);
        } else {
            sheet.note = told(LEFT_WORD, job.id, age);
            self.class.tell_overdue(job.id, age, &mut sheet.note);
        }
    }

    /// A job stays with its class for a drawn while.
    #[tactic(auto, unfolding(crate::specs::Classes::stay_effect))]
    fn stay(&self, words: &mut Stream, law: &DelayLaw, job: Job, sheet: &mut Effect)
        requires law { IsTrue (is_delay_law law.now) }
        requires job { HasJob self.now.routes.now job }
        requires step { job.step < MOST_STEPS }
        requires blank { sheet.old ≡ blank }
        ensures { let at = self.now in sheet.new ≡ stay_effect at.site at.routes.now law.now job at.cells.now.contents at.event.now }
    {
        let delay = self.site.draw(words, self.cells, law, sheet);
        let next = self.routes.to(job, self.event.b, job.step + 1, delay);
        sheet.sends.push(next);
        sheet.note = told(DELAYED_WORD, job.id, delay);
    }

    /// A job goes to a drawn step.
    #[tactic(auto, unfolding(crate::specs::Classes::go_effect))]
    fn go_to_drawn_step(&self, words: &mut Stream, branch: &Branch, job: Job, sheet: &mut Effect)
        requires branch { IsBranch MOST_STEPS branch.now }
        requires job { HasJob self.now.routes.now job }
        requires blank { sheet.old ≡ blank }
        ensures { let at = self.now in sheet.new ≡ go_effect at.site at.routes.now branch.now job at.cells.now.contents at.event.now }
    {
        let place = self.cells.word(0);
        let (way, next_place) = choose_by(
            words,
            self.site.seed,
            self.site.object,
            place,
            &branch.weights,
        );
        keep_place(&mut sheet.changes, place, next_place);
        let step = branch.step(way);
        sheet.sends.push(self.routes.to(job, self.event.b, step, 0));
        sheet.note = told(WENT_WORD, job.id, u64::from(step));
    }
}

impl Class {
    /// Tells by how much a job leaves after its due.
    fn tell_overdue(&self, id: u64, age: u64, note: &mut Note)
        requires { length note.old ≤ 1 }
        ensures { note.new ≡ note.old ++ overdue self.now.due id age }
    {
        if let Some(due) = self.due {
            if age > due {
                note.add(Part {
                    word: OVERDUE_WORD,
                    a: id,
                    b: age - due,
                });
            }
        }
    }
}

impl Branch {
    /// The step that is chosen by its place.
    fn step(&self, way: u64) -> u32
        requires branch { IsBranch MOST_STEPS self.now }
        requires within { way < length self.now.steps }
        ensures step { result ≡ slice_index self.now.steps way }
        ensures few { result ≤ MOST_STEPS + 1 }
    {
        self.steps.as_slice()[way as usize]
    }
}
