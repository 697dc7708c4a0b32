//! The routes of all classes, by which jobs go from object to object.
ghost use Rattle.std.specs.Prelude.{◌≡◌, ◌<◌, ◌≤◌, ◌+◌, IfSome, length};
ghost use Rattle.std.specs.Option.{option_copied};
ghost use Rattle.shop_model.specs.declared.class.TheConstants.{MOST_STEPS};
ghost use Rattle.shop_model.specs.Parts.{AreRoutes};
ghost use Rattle.shop_model.specs.Routes.{class_at, step_at, is_job, job_of, object_at, visit_at, moved, HasJob};
ghost use Rattle.shop_model.specs.Meaning.{job_here, is_served};

use crate::class::Class;
use crate::job::{BirthCode, Job, JobCode};
use crate::kinds::{COME, COME_RANK};
use crate::step::{Step, Visit};
use model_core::{Send, Sequence};

/// The classes, and how many stations come before them in the numbering of objects.
#[derive(Drop)]
pub struct Routes {
    pub stations: u32,
    pub classes: Sequence<Class>,
}

impl Routes {
    /// The class with this number.
    pub fn class(&self, class: u32) -> &Class
        requires { class < length self.now.classes }
        ensures { result.now ≡ class_at self.now class }
    {
        &self.classes.as_slice()[class as usize]
    }

    /// Whether an event names a job.
    #[tactic(auto, unfolding(crate::specs::Routes::is_job))]
    fn is_job(&self, a: u64) -> bool
        requires { AreRoutes self.now }
        ensures { result ≡ is_job self.now a }
    {
        let code = JobCode { word: a };
        if code.class() >= self.classes.as_slice().len() as u64 || code.number() == 0 {
            return false;
        }
        let steps = self.class(code.class() as u32).route.as_slice().len() as u64;
        code.step() <= steps + 1
    }

    /// The job that an event names, where there is one.
    #[tactic(auto, unfolding(crate::specs::Routes::job_of))]
    pub fn job(&self, a: u64) -> Option<Job>
        requires { AreRoutes self.now }
        ensures job { result ≡ job_of self.now a }
        ensures there { IfSome result (HasJob self.now) }
    {
        if !self.is_job(a) {
            return None;
        }
        let code = JobCode { word: a };
        Some(Job {
            class: code.class() as u32,
            step: code.step() as u32,
            id: code.id(),
        })
    }

    /// The step of a class with this number, where there is one.
    pub fn step(&self, class: u32, step: u32) -> Option<&Step>
        requires { class < length self.now.classes }
        ensures { option_copied result ≡ step_at self.now class step }
    {
        self.class(class).route.as_slice().get(step as usize)
    }

    /// The object at which a job of this class stands at a step.
    #[tactic(auto, unfolding(crate::specs::Routes::object_at))]
    pub fn object_at(&self, class: u32, step: u32) -> u32
        requires routes { AreRoutes self.now }
        requires class { class < length self.now.classes }
        ensures { result ≡ object_at self.now class step }
    {
        match self.step(class, step) {
            Some(Step::Visit(visit)) => visit.station,
            Some(Step::Free { station }) => *station,
            _ => self.stations + class,
        }
    }

    /// The job that an event names, where it stands at this object.
    #[tactic(auto, unfolding(crate::specs::Meaning::job_here))]
    pub fn job_here(&self, object: u32, a: u64) -> Option<Job>
        requires { AreRoutes self.now }
        ensures job { result ≡ job_here self.now object a }
        ensures there { IfSome result (HasJob self.now) }
    {
        let job = self.job(a)?;
        if self.object_at(job.class, job.step) == object {
            Some(job)
        } else {
            None
        }
    }

    /// Whether a server serves a job at its step.
    pub fn is_served(&self, job: Job) -> bool
        requires { HasJob self.now job }
        ensures { result ≡ is_served (step_at self.now job.class job.step) }
    {
        match self.step(job.class, job.step) {
            Some(Step::Visit(visit)) => visit.service.is_some(),
            _ => false,
        }
    }

    /// The visit of a station at which this is a job.
    #[tactic(auto, unfolding(crate::specs::Routes::visit_at))]
    pub fn visit(&self, station: u32, a: u64) -> Option<&Visit>
        requires { AreRoutes self.now }
        ensures { option_copied result ≡ visit_at self.now station a }
    {
        let job = self.job(a)?;
        match self.step(job.class, job.step) {
            Some(Step::Visit(visit)) if visit.station == station => Some(visit),
            _ => None,
        }
    }

    /// The job on its way to the step after its own, where it comes at once.
    pub fn onward(&self, job: Job, b: u64) -> Send
        requires routes { AreRoutes self.now }
        requires job { HasJob self.now job }
        requires step { job.step < MOST_STEPS }
        ensures { result ≡ moved self.now job b (job.step + 1) 0 }
    {
        self.to(job, b, job.step + 1, 0)
    }

    /// The job on its way to a step, where it comes after a delay.
    #[tactic(auto, unfolding(crate::specs::Routes::moved))]
    pub fn to(&self, job: Job, b: u64, step: u32, delay: u64) -> Send
        requires routes { AreRoutes self.now }
        requires job { HasJob self.now job }
        requires step { step ≤ MOST_STEPS + 1 }
        ensures { result ≡ moved self.now job b step delay }
    {
        Send {
            dest: self.object_at(job.class, step),
            delay,
            kind: COME,
            a: JobCode::of(step, job.id).word,
            b: BirthCode { word: b }.birth(),
            rank: COME_RANK + self.class(job.class).priority,
        }
    }
}
