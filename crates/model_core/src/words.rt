//! The words of records and those of faults: the number by which a model tells each, and its text.
ghost use Rattle.std.specs.Prelude.{◌≡◌, ◌+◌, ◌≤◌, length, option_map, IfSome, IfNone, None};
ghost use Rattle.model_core.specs.Words.{record_word, fault_word};
ghost use Rattle.model_core.specs.SpacedWords.{IsSpaced, between_spaces, told_word};
ghost use Rattle.model_core.specs.Writing.{WritesAt};

use crate::writing::write_first;

/// An event hops on to another object.
pub const HOP_WORD: u32 = 1;

/// A source makes a job.
pub const MADE_WORD: u32 = 2;

/// A server takes a job that arrives.
pub const TAKEN_WORD: u32 = 3;

/// A job that arrives waits.
pub const WAITING_WORD: u32 = 4;

/// A job that arrives is turned away.
pub const LOST_WORD: u32 = 5;

/// A job's service is done.
pub const DONE_WORD: u32 = 6;

/// A job is held for a while.
pub const HELD_WORD: u32 = 7;

/// A job is sent one of several ways.
pub const ROUTED_WORD: u32 = 8;

/// A job leaves the network.
pub const LEFT_WORD: u32 = 9;

/// How many of a station's servers are busy, and how many jobs wait there.
pub const LOAD_WORD: u32 = 10;

/// The output of a gate.
pub const LEVEL_WORD: u32 = 11;

/// A job stays with its class for a while.
pub const DELAYED_WORD: u32 = 12;

/// A job goes to a step of its route that was drawn.
pub const WENT_WORD: u32 = 13;

/// A job is given up.
pub const DROPPED_WORD: u32 = 14;

/// A job leaves after its due age.
pub const OVERDUE_WORD: u32 = 15;

/// A server calls a job that waits.
pub const CALLED_WORD: u32 = 16;

/// A job gives a server back.
pub const FREED_WORD: u32 = 17;

/// A job goes that has waited for as long as it may.
pub const RENEGED_WORD: u32 = 18;

/// A shift opens so many servers.
pub const OPENED_WORD: u32 = 19;

/// A station stands still.
pub const DOWN_WORD: u32 = 20;

/// A station works again.
pub const UP_WORD: u32 = 21;

/// The fault of an event that sends without delay at the last step of a tick. It is the simulation's, and no model's.
pub const ENDLESS_CHAIN: u32 = 1;

/// The fault of a job that finds the line of a strict station full.
pub const LINE_FULL: u32 = 2;

/// The fault of a job that leaves after its due age.
pub const LATE: u32 = 3;

/// The text of a word of records, where there is one with this number.
pub fn record_word(number: u32) -> Option<&'static str>
    ensures { option_map (λ text. text.now) result ≡ record_word number }
{
    match number {
        HOP_WORD => Some("hop"),
        MADE_WORD => Some("make"),
        TAKEN_WORD => Some("take"),
        WAITING_WORD => Some("wait"),
        LOST_WORD => Some("lose"),
        DONE_WORD => Some("done"),
        HELD_WORD => Some("hold"),
        ROUTED_WORD => Some("route"),
        LEFT_WORD => Some("leave"),
        LOAD_WORD => Some("load"),
        LEVEL_WORD => Some("level"),
        DELAYED_WORD => Some("delay"),
        WENT_WORD => Some("go"),
        DROPPED_WORD => Some("drop"),
        OVERDUE_WORD => Some("late"),
        CALLED_WORD => Some("call"),
        FREED_WORD => Some("free"),
        RENEGED_WORD => Some("renege"),
        OPENED_WORD => Some("open"),
        DOWN_WORD => Some("down"),
        UP_WORD => Some("up"),
        _ => None,
    }
}

/// The text of a fault, where there is one with this code.
pub fn fault_word(code: u32) -> Option<&'static str>
    ensures { option_map (λ text. text.now) result ≡ fault_word code }
{
    match code {
        ENDLESS_CHAIN => Some("chain"),
        LINE_FULL => Some("line-full"),
        LATE => Some("late"),
        _ => None,
    }
}

/// The first ones of these bytes: a word between spaces.
#[derive(Clone, Copy)]
struct Spaced {
    bytes: [u8; 8],
    count: usize,
}

/// A word of records between spaces, where there is one with this number.
#[inline(always)]
fn spaced_word(number: u32) -> Option<Spaced>
    ensures some { IfSome result (IsSpaced number) }
    ensures none { IfNone result (record_word number ≡ None) }
{
    let (bytes, count) = match number {
        HOP_WORD => (*b" hop    ", 5),
        MADE_WORD => (*b" make   ", 6),
        TAKEN_WORD => (*b" take   ", 6),
        WAITING_WORD => (*b" wait   ", 6),
        LOST_WORD => (*b" lose   ", 6),
        DONE_WORD => (*b" done   ", 6),
        HELD_WORD => (*b" hold   ", 6),
        ROUTED_WORD => (*b" route  ", 7),
        LEFT_WORD => (*b" leave  ", 7),
        LOAD_WORD => (*b" load   ", 6),
        LEVEL_WORD => (*b" level  ", 7),
        DELAYED_WORD => (*b" delay  ", 7),
        WENT_WORD => (*b" go     ", 4),
        DROPPED_WORD => (*b" drop   ", 6),
        OVERDUE_WORD => (*b" late   ", 6),
        CALLED_WORD => (*b" call   ", 6),
        FREED_WORD => (*b" free   ", 6),
        RENEGED_WORD => (*b" renege ", 8),
        OPENED_WORD => (*b" open   ", 6),
        DOWN_WORD => (*b" down   ", 6),
        UP_WORD => (*b" up     ", 4),
        _ => return None,
    };
    Some(Spaced { bytes, count })
}

/// Writes a word of records between spaces at a place, and answers the place behind it. A number without a word isn't
/// written.
#[inline(always)]
pub fn write_record_word(number: u32, into: &mut [u8], at: usize) -> Option<usize>
    requires { at + 8 ≤ length into.old }
    ensures some { IfSome result (λ end. WritesAt into.old into.new at end (between_spaces (told_word (record_word number) number))) }
    ensures few { IfSome result (λ end. end ≤ at + 8) }
    ensures none { IfNone result (into.new ≡ into.old) }
{
    let spaced = spaced_word(number)?;
    Some(write_first(spaced.count, &spaced.bytes, into, at))
}
