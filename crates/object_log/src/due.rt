//! Which events a commit takes.
ghost use Rattle.std.specs.Prelude.{◌≡◌};
ghost use Rattle.key_order.specs.Due.{is_due};

use event_key::Key;

/// Whether a commit takes an event of this key: its stamp is below the horizon, and the key is below the cut if there is
/// one.
#[tactic(auto, unfolding(key_order::specs::Due::is_due))]
pub fn is_due_at(horizon: u64, cut: &Option<Key>, key: &Key) -> bool
    ensures { result ≡ is_due horizon cut.now key.now }
{
    key.stamp < horizon
        && match cut {
            Some(cut) => key.is_before(cut),
            None => true,
        }
}
