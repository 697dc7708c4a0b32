//! A stamp is a time and a step within it.
//!
//! A time is a whole number of ticks, and a step is a number from 0 to 65535 within a tick. What is sent
//! without delay goes to the next step of the same tick, so that a stamp always exceeds its cause's.
ghost use Rattle.std.specs.Prelude.{◌≡◌, ◌+◌, ◌*◌, ◌/◌, ◌%◌, ◌^◌, ◌<◌, ◌≤◌, IfSome};
ghost use Rattle.event_key.specs.Stamps.{stamp_at, time_part, step_part, later_stamp, end_stamp};

/// Above every stamp of an event: what stands for a least stamp where there is none.
pub const NO_STAMP: u64 = 18446744073709551615;

/// How many steps a tick has.
pub const STEPS: u64 = 65_536;

/// The last tick in which a simulation may end, or something in it begin: 2^46 - 1.
pub const LAST_TICK: u64 = 70_368_744_177_663;

/// The stamp of a step of a tick.
pub fn stamp_of(time: u64, step: u32) -> u64
    requires time { time < 2 ^ 47 }
    requires step { step ≤ 65535 }
    ensures stamp { result ≡ stamp_at time step }
    ensures time { time_part result ≡ time }
    ensures step { step_part result ≡ step }
{
    time * STEPS + u64::from(step)
}

/// The tick of a stamp.
pub fn time_of(stamp: u64) -> u64
    ensures { result ≡ time_part stamp }
{
    stamp / STEPS
}

/// The step of a stamp within its tick, from 0 to 65535.
pub fn step_of(stamp: u64) -> u32
    ensures { result ≡ step_part stamp }
{
    (stamp % STEPS) as u32
}

/// The stamp of what an event at `stamp` sends with a delay in ticks: the next step where the delay is 0,
/// and else step 0 of the later tick. There is none where the delay is 0 and the tick has no further step.
#[tactic(auto, unfolding(crate::specs::Stamps::has_no_step, crate::specs::Stamps::next_stamp))]
pub fn later(stamp: u64, delay: u64) -> Option<u64>
    requires time { time_part stamp < 2 ^ 46 }
    requires delay { delay ≤ 2 ^ 40 }
    ensures stamp { result ≡ later_stamp stamp delay }
    ensures above { IfSome result (λ next. stamp < next) }
{
    if delay > 0 {
        Some((time_of(stamp) + delay) * STEPS)
    } else if step_of(stamp) == 65535 {
        None
    } else {
        Some(stamp + 1)
    }
}

/// The first stamp past the last tick of a simulation: the greatest horizon that a cycle can have.
pub fn end_bound(end: u64) -> u64
    requires { end < 2 ^ 46 }
    ensures { result ≡ end_stamp end }
{
    (end + 1) * STEPS
}
