//! Random numbers of a simulation: each object has a stream of words under a seed, and laws draw values from
//! the words at a place of it.
//!
//! A stream is the ChaCha20 key stream in its original layout, with a 64-bit block counter and a 64-bit stream
//! number: D. J. Bernstein, "ChaCha, a variant of Salsa20", 2008. The block function is that of RFC 8439. The
//! key is the seed's eight little-endian bytes and 24 zero bytes, and the stream number is the object's.
#![tactic(auto)]

mod block;
mod delay_law;
mod divisor;
mod draws;
mod law;
mod prepared;
mod shares;
mod stream;
mod values;
mod weights;

pub use delay_law::{DelayLaw, MOST_UNIT};
pub use divisor::Divisor;
pub use draws::{choose_by, draw, draw_by};
pub use law::{Law, MOST_TRIALS, MOST_VALUE};
pub use prepared::PreparedLaw;
pub use shares::{MOST_SHARES, Shares, are_shares};
pub use stream::Stream;
pub use values::Values;
pub use weights::{MOST_WEIGHT, MOST_WEIGHTS, Weights, total_weight};
