//! The events that an object sends to itself, or begins with.
ghost use Rattle.std.specs.Prelude.{◌≡◌, ◌%◌, ◌==◌};
ghost use Rattle.shop_model.specs.Kinds.{rank_of};
ghost use Rattle.shop_model.specs.OwnEvents.{kind_of, first_word, second_word};

use crate::job::{BirthCode, JobCode};
use crate::kinds::{BREAK, CALL, DONE, MAKE, MEND, SHIFT, TIRE};

/// An event of an object's own.
#[derive(Clone, Copy)]
pub enum OwnEvent {
    /// Jobs arrive at a class.
    Arrive,
    /// Jobs arrive at a class, and the next arrival is drawn.
    ArriveInTurn,
    /// A class makes the jobs that are left of an arrival.
    MakeRest { jobs: u64 },
    /// A service may be at its end: that of a job, by a server.
    Done { job: JobCode, birth: BirthCode },
    /// A server may call a job that waits.
    Call,
    /// The patience of a job that waits may be at its end. Entries count from the first that the level ever had.
    Tire { entry: u64, level: u32 },
    /// A shift begins.
    Shift { number: u64 },
    /// A station stands still from now on.
    Break,
    /// A station works from now on.
    Mend,
}

impl OwnEvent {
    /// The kind of the event.
    #[inline(always)]
    pub fn kind(self) -> u32
        ensures { result ≡ kind_of self }
    {
        match self {
            OwnEvent::Arrive | OwnEvent::ArriveInTurn | OwnEvent::MakeRest { .. } => MAKE,
            OwnEvent::Done { .. } => DONE,
            OwnEvent::Call => CALL,
            OwnEvent::Tire { .. } => TIRE,
            OwnEvent::Shift { .. } => SHIFT,
            OwnEvent::Break => BREAK,
            OwnEvent::Mend => MEND,
        }
    }

    /// The rank of the event: of one instant services end first, then stations break or are mended, shifts change,
    /// patience ends, jobs are made, jobs come, and last of all servers call.
    #[tactic(auto, unfolding(crate::specs::Kinds::rank_of))]
    #[inline(always)]
    pub fn rank(self) -> u32
        ensures { result ≡ rank_of (kind_of self) }
    {
        match self {
            OwnEvent::Arrive | OwnEvent::ArriveInTurn | OwnEvent::MakeRest { .. } => 4,
            OwnEvent::Done { .. } => 0,
            OwnEvent::Call => 16,
            OwnEvent::Tire { .. } => 3,
            OwnEvent::Shift { .. } => 2,
            OwnEvent::Break | OwnEvent::Mend => 1,
        }
    }

    /// What the event carries as its number `a`.
    #[inline(always)]
    pub fn first_word(self) -> u64
        ensures { result ≡ first_word self }
    {
        match self {
            OwnEvent::MakeRest { jobs } => jobs,
            OwnEvent::Done { job, .. } => job.word,
            OwnEvent::Tire { entry, .. } => entry,
            OwnEvent::Shift { number } => number,
            _ => 0,
        }
    }

    /// What the event carries as its number `b`.
    #[inline(always)]
    pub fn second_word(self) -> u64
        ensures { result ≡ second_word self }
    {
        match self {
            OwnEvent::ArriveInTurn => 1,
            OwnEvent::Done { birth, .. } => birth.word,
            OwnEvent::Tire { level, .. } => u64::from(level),
            _ => 0,
        }
    }
}

/// Whether jobs arrive in turn by an event of a class with this number `b`.
#[inline(always)]
pub fn is_in_turn(b: u64) -> bool
    ensures { result ≡ (b % 2 == 1) }
{
    b % 2 == 1
}
