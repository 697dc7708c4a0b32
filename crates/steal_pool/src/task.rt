//! A turn with its number.
ghost use Rattle.std.specs.Prelude.{◌≡◌};

use crate::turn::Turn;

/// A turn, and its number among all turns of a run.
#[derive(Drop)]
pub struct Task<T> {
    pub number: usize,
    pub turn: T,
}

impl<T: Turn> Task<T> {
    /// The task once its turn is done.
    pub fn run(self) -> Task<T>
        requires { T.ready self.turn }
        ensures number { result.number ≡ self.number }
        ensures turned { T.turned self.turn result.turn }
    {
        let Task { number, mut turn } = self;
        turn.turn();
        Task { number, turn }
    }
}
