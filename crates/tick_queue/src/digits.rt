//! The digits of ticks, six bits each.
ghost use Rattle.std.specs.Prelude.{◌≡◌, ℕ, ◌*◌, ◌/◌, ◌<◌, ◌≤◌, ◌^◌};
ghost use Rattle.tick_queue.specs.Digits.{InSlot};

/// The slot of a tick that isn't before the tick at hand.
pub fn slot_of(now: u64, tick: u64) -> usize
    requires from { now ≤ tick }
    requires tick { tick < 2 ^ 48 }
    ensures slot { result < 512 }
    ensures at { InSlot now result tick }
{
    let level = ((tick ^ now) | 1).ilog2() / 6;
    let digit = (tick >> (6 * level)) % 64;
    (64 * u64::from(level) + digit) as usize
}

/// The first tick of a slot in which some tick stands.
pub fn first_tick(now: u64, slot: usize) -> u64
    requires slot { slot < 512 }
    requires some { (t : ℕ) × (t < 2 ^ 48) × InSlot now slot t }
    ensures { (t : ℕ) → InSlot now slot t → result ≡ t / 2 ^ (6 * (slot / 64)) * 2 ^ (6 * (slot / 64)) }
{
    let low = 6 * (slot / 64) as u32;
    (((now >> low) / 64) * 64 + (slot % 64) as u64) << low
}
