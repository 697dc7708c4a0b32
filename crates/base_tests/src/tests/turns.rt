//! What no clause says: that runs succeed, and that turns are stolen.
use std::hint;
use std::sync::atomic::{AtomicBool, Ordering};
use std::test::Fail;
use steal_pool::{Turn, run_turns};

/// A number that its turn doubles.
#[derive(Drop)]
struct Doubling {
    number: u32,
    doubled: u64,
}

impl Turn for Doubling {
    ghost use Rattle.std.specs.Prelude.{⊤, ◌≡◌, ◌*◌};

    ghost ready = { λ one. ⊤ };

    ghost turned = { λ old new. new.doubled ≡ 2 * old.number };

    fn turn(&mut self) {
        self.doubled = 2 * u64::from(self.number);
    }
}

/// Holds turn 0 until turn 2 has begun, for so many looks at most, and keeps whether it saw that.
#[derive(Drop)]
struct Stick {
    begun: AtomicBool,
    seen: AtomicBool,
}

impl Stick {
    fn new() -> Stick {
        Stick {
            begun: AtomicBool::new(false),
            seen: AtomicBool::new(false),
        }
    }

    fn hold(&self) {
        for _ in 0..200_000_000u64 {
            if self.begun.load(Ordering::SeqCst) {
                self.seen.store(true, Ordering::SeqCst);
                return;
            }
            hint::spin_loop();
        }
    }
}

/// A turn that a stick may hold.
#[derive(Drop)]
struct Held<'a> {
    number: u32,
    stick: &'a Stick,
}

impl<'a> Turn for Held<'a> {
    ghost use Rattle.std.specs.Prelude.{⊤, ◌≡◌};

    ghost ready = { λ one. ⊤ };

    ghost turned = { λ old new. new.number ≡ old.number };

    fn turn(&mut self) {
        match self.number {
            0 => self.stick.hold(),
            2 => self.stick.begun.store(true, Ordering::SeqCst),
            _ => {}
        }
    }
}

#[test]
fn each_turn_is_done_once_and_stands_at_its_place(rt: HostRuntime) -> Result<(), Fail> {
    for (count, workers) in [(0, 1), (1, 64), (5, 2), (64, 3), (64, 64)] {
        let mut turns = Vec::new(rt.alloc());
        for number in 0..count {
            turns.push(Doubling { number, doubled: 0 })?;
        }
        let done = run_turns(&rt, rt.alloc(), turns, workers)?;
        assert!(rt; done.len() == count as usize);
        for (place, one) in done.iter().enumerate() {
            assert!(rt; one.doubled == 2 * place as u64);
        }
    }
    Ok(())
}

// Turns 0 and 2 begin in one deque, so turn 0 sees turn 2 begin only where another worker steals it.
#[test]
fn a_turn_that_waits_in_a_deque_is_stolen(rt: HostRuntime) -> Result<(), Fail> {
    let stick = Stick::new();
    let mut turns = Vec::new(rt.alloc());
    for number in 0..4 {
        turns.push(Held {
            number,
            stick: &stick,
        })?;
    }
    let done = run_turns(&rt, rt.alloc(), turns, 2)?;
    assert!(rt; done.len() == 4);
    assert!(rt; stick.seen.load(Ordering::SeqCst));
    Ok(())
}
