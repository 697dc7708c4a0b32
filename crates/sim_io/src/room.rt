//! Appending to a buffer that has room.
ghost use Rattle.std.specs.Prelude.{◌≡◌, ◌+◌, ◌≤◌, ◌++◌, length, vec_len};
ghost use Rattle.std.specs.Vec.{vec_capacity};

/// Appends bytes for which there is room. So it takes no memory, and the compiler leaves out what would.
pub fn append(bytes: &[u8], into: &mut Vec<u8>)
    requires { vec_len into.old + length bytes.now ≤ vec_capacity into.old }
    ensures { into.new.items ≡ into.old.items ++ bytes.now }
{
    if into.capacity() - into.len() < bytes.len() {
        unreachable!();
    }
    into.extend_from_slice(bytes).unwrap();
}
