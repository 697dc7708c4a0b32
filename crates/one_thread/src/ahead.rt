//! Objects that are read before their events are fired.
//!
//! Where objects are many, most of them lie in no cache when their events come, and each event would wait for its own. So
//! the next ones are read a few events ahead, by reads that don't wait for one another. That stands for a prefetch
//! (Callahan, Kennedy and Porterfield, "Software Prefetching", 1991), and changes nothing that a simulation tells.
ghost use Rattle.std.specs.Prelude.{◌≡◌};

use event_firing::Object;
use tick_queue::TickQueue;

/// So few objects lie in the caches anyway.
const FEW: usize = 8_192;

/// How many events are fired from one look ahead to the next.
const STEP: usize = 8;

/// A sum of all that was read ahead. Nobody asks for it, but what isn't used isn't read.
#[derive(Drop)]
pub struct ReadAhead {
    sum: u64,
}

impl ReadAhead {
    /// Nothing was read yet.
    pub fn new() -> ReadAhead {
        ReadAhead { sum: 0 }
    }

    /// Lets a queue pause where a look ahead is due.
    pub fn pace(objects: &[Object], queue: &mut TickQueue)
        ensures { queue.new ≡ queue.old }
    {
        if objects.len() > FEW {
            queue.pause_after(STEP);
        }
    }

    /// Looks ahead at a pause of the queue, where objects are many, and answers whether they are.
    #[inline(always)]
    pub fn look(&mut self, objects: &[Object], queue: &TickQueue) -> bool {
        if objects.len() <= FEW {
            return false;
        }
        self.read_next(objects, queue);
        true
    }

    /// Reads the objects of the events that are fired after the next look ahead, as far as these events are at hand.
    #[inline(never)]
    fn read_next(&mut self, objects: &[Object], queue: &TickQueue) {
        for k in STEP..2 * STEP {
            let Some(event) = queue.after_first(k) else {
                return;
            };
            self.read(objects, event.key.dest as usize);
        }
    }

    /// Reads an object that isn't the last one. It takes some lines of a cache, the last of which has the beginning of the
    /// next object too.
    fn read(&mut self, objects: &[Object], at: usize) {
        if objects.len() < 2 || at > objects.len() - 2 {
            return;
        }
        let (object, next) = (&objects[at], &objects[at + 1]);
        self.sum ^= object.touch() ^ u64::from(next.cells().words());
    }
}
