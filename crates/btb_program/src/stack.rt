//! How far the stack has grown.
ghost use Rattle.std.specs.Prelude.{◌≡◌};

/// How many bytes of the stack a run takes once before any thread but the first begins: as many as a read of the input.
/// Later, where other threads have taken the address space, the first thread's stack might not grow any more.
const STACK_BYTES: usize = 262_144;

/// As many bytes in numbers.
const STACK_NUMBERS: usize = STACK_BYTES / 4;

/// Answers the number, from one of many copies on the stack, which has grown by `STACK_BYTES` then. The compiler can't
/// know which copy, so it leaves none out.
#[inline(never)]
pub fn grow_stack(number: u32) -> u32
    ensures { result ≡ number }
{
    let mut copies = [0; STACK_NUMBERS];
    copies.fill(number);
    copies[number as usize % STACK_NUMBERS]
}
