//! Keys beside a fault, if there is one.
ghost use Rattle.std.specs.Prelude.{◌≡◌};
ghost use Rattle.event_key.specs.Keys.{same_key};
ghost use Rattle.node_core.specs.Marks.{code_at_key, is_before_fault as before_fault};

use event_key::Key;

/// Whether a key comes before a fault, if there is one.
#[inline(always)]
pub fn is_before_fault(key: &Key, fault: &Option<(Key, u32)>) -> bool
    ensures { result ≡ before_fault key.now fault.now }
{
    match fault {
        Some((least, _code)) => key.is_before(least),
        None => true,
    }
}

/// The code of a fault, if it is at a key.
#[inline(always)]
pub fn code_at(key: &Key, fault: Option<(Key, u32)>) -> Option<u32>
    ensures { result ≡ code_at_key key.now fault }
{
    let (at, code) = fault?;
    if is_same(&at, key) { Some(code) } else { None }
}

/// Whether two keys are the same.
#[tactic(auto, unfolding(event_key::specs::Keys::same_key, event_key::specs::Keys::key_cmp))]
fn is_same(one: &Key, other: &Key) -> bool
    ensures { result ≡ same_key one.now other.now }
{
    one.cmp(other).is_eq()
}
