//! The random place of an object, which its cells keep in word 0.
ghost use Rattle.std.specs.Prelude.{◌≡◌, ◌≤◌, [], length};
ghost use Rattle.model_core.specs.Places.{place_changes};

use crate::few::Few;
use delta_exchange::Change;

/// Keeps the random place after the words that an event drew, where it drew any.
#[tactic(auto, unfolding(crate::specs::Places::place_changes))]
pub fn keep_place(changes: &mut Few<Change, 16>, place: u64, next: u64)
    requires { changes.old ≡ [] }
    ensures place { changes.new ≡ place_changes place next }
    ensures few { length changes.new ≤ 1 }
{
    if next != place {
        changes.push(Change::Set {
            word: 0,
            value: next,
        });
    }
}
