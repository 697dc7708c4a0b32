//! Jobs, as events name them: by `step * 2^40 + id`, where the id is `class * 10000000 + number`, and by
//! `server * 2^48 + birth`.
ghost use Rattle.std.specs.Prelude.{◌≡◌, ◌<◌, ◌^◌};
ghost use Rattle.shop_model.specs.declared.job.TheConstants.{IDS, BIRTHS};
ghost use Rattle.shop_model.specs.Jobs.{id_of, class_of, number_of, step_of, birth_of, server_of, job_at, served_by};

/// How far the ids of two classes lie apart: the jobs of a class are numbered from 1 on, up to one less.
pub const JOBS_A_CLASS: u64 = 10_000_000;

/// Ids lie below this, 2^40: in a number, the step of a job stands above its id.
pub const IDS: u64 = 1 << 40;

/// The ticks at which jobs are made lie below this, 2^48: in a number, the server of a job stands above such a tick.
pub const BIRTHS: u64 = 1 << 48;

/// A job: its class, its step, and the id that records tell.
#[derive(Clone, Copy, Debug, PartialEq, Eq)]
pub struct Job {
    pub class: u32,
    pub step: u32,
    pub id: u64,
}

/// A job at its step, as the number `a` of an event and the entry of a line name it.
#[derive(Clone, Copy)]
pub struct JobCode {
    pub word: u64,
}

/// The tick at which a job was made and the server that serves it, as the number `b` of an event names them.
#[derive(Clone, Copy)]
pub struct BirthCode {
    pub word: u64,
}

impl JobCode {
    /// That of a job with this id at a step.
    pub fn of(step: u32, id: u64) -> JobCode
        requires step { step < 2 ^ 24 }
        requires id { id < IDS }
        ensures { result.word ≡ job_at step id }
    {
        JobCode {
            word: u64::from(step) * IDS + id,
        }
    }

    /// The id of the job.
    pub fn id(self) -> u64
        ensures { result ≡ id_of self.word }
    {
        self.word % IDS
    }

    /// The number of the job's class.
    pub fn class(self) -> u64
        ensures { result ≡ class_of self.word }
    {
        self.id() / JOBS_A_CLASS
    }

    /// The number of the job in its class.
    pub fn number(self) -> u64
        ensures { result ≡ number_of self.word }
    {
        self.id() % JOBS_A_CLASS
    }

    /// The step of the job's route.
    pub fn step(self) -> u64
        ensures { result ≡ step_of self.word }
    {
        self.word / IDS
    }
}

impl BirthCode {
    /// That of a job that was made at this tick, on a server.
    pub fn of(server: u64, birth: u64) -> BirthCode
        requires server { server < 2 ^ 16 }
        requires birth { birth < BIRTHS }
        ensures { result.word ≡ served_by server birth }
    {
        BirthCode {
            word: server * BIRTHS + birth,
        }
    }

    /// The tick of the job's make.
    pub fn birth(self) -> u64
        ensures { result ≡ birth_of self.word }
    {
        self.word % BIRTHS
    }

    /// The server that serves the job.
    pub fn server(self) -> u64
        ensures { result ≡ server_of self.word }
    {
        self.word / BIRTHS
    }
}
