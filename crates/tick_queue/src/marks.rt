//! One bit for each slot.
ghost use Rattle.std.specs.Prelude.{◌≡◌, ◌≢◌, ℕ, ◌<◌, IfSome, IfNone};
ghost use Rattle.tick_queue.specs.Marks.{mark_of, IsFirstMarked};

/// Sets the bit of a slot.
pub fn mark(words: &mut [u64; 8], slot: usize)
    requires { slot < 512 }
    ensures same { mark_of words.new slot ≡ 1 }
    ensures others { (i : ℕ) → i ≢ slot → mark_of words.new i ≡ mark_of words.old i }
{
    words[slot / 64] |= 1u64 << (slot % 64);
}

/// Clears the bit of a slot.
pub fn unmark(words: &mut [u64; 8], slot: usize)
    requires { slot < 512 }
    ensures same { mark_of words.new slot ≡ 0 }
    ensures others { (i : ℕ) → i ≢ slot → mark_of words.new i ≡ mark_of words.old i }
{
    words[slot / 64] &= !(1u64 << (slot % 64));
}

/// The first slot whose bit is set.
pub fn first_marked(words: &[u64; 8]) -> Option<usize>
    ensures some { IfSome result (λ slot. IsFirstMarked words.now slot) }
    ensures none { IfNone result ((i : ℕ) → mark_of words.now i ≡ 0) }
{
    for level in 0..8 {
        let word = words[level];
        if word != 0 {
            return Some(64 * level + word.trailing_zeros() as usize);
        }
    }
    None
}
