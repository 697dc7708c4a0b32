//! What the objects of logs are, put in and read out.
ghost use Rattle.std.specs.Prelude.{◌≡◌, ◌≢◌, ℕ, [], is_some, IfSome, Some, true};
ghost use Rattle.object_log.specs.EventLogs.{dones_at, state_in};

use super::Logs;
use model_core::Cells;

impl Logs {
    /// Gives an object that has processed nothing other cells, and how many events it has sent. Takes no memory.
    pub fn set(&mut self, object: u32, cells: Cells, sent: u64)
        requires here { is_some (state_in self.old.log.objects object) ≡ true }
        requires none { dones_at object self.old.log.done ≡ [] }
        ensures state { state_in self.new.log.objects object ≡ Some (record { cells = cells.contents; sent = sent }) }
        ensures others { (other : ℕ) → other ≢ object → state_in self.new.log.objects other ≡ state_in self.old.log.objects other }
        ensures same { self.new ≡ record self.old { log = record self.old.log { objects = self.new.log.objects } } }
    {
        let place = self.places[object as usize];
        self.log.set(place, object, cells, sent);
    }

    /// The cells of an object, after all that it has processed.
    pub fn cells(&self, object: u32) -> &Cells
        requires { is_some (state_in self.now.log.objects object) ≡ true }
        ensures { IfSome (state_in self.now.log.objects object) (λ s. result.now.contents ≡ s.cells) }
    {
        self.tells();
        self.log.cells(self.places[object as usize])
    }

    /// How many events an object has sent, held ones among them.
    pub fn sent(&self, object: u32) -> u64
        requires { is_some (state_in self.now.log.objects object) ≡ true }
        ensures { IfSome (state_in self.now.log.objects object) (λ s. result ≡ s.sent) }
    {
        self.tells();
        self.log.sent(self.places[object as usize])
    }
}
