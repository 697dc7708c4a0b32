//! What is done once.

/// Something that has one turn of work to do.
pub trait Turn: Send + Drop {
    /// Its turn can be done.
    ghost ready: { Self → Type 0 };

    /// The second is the first once its turn is done.
    ghost turned: { Self → Self → Type 0 };

    /// Does the turn.
    fn turn(&mut self)
        requires { ready self.old }
        ensures { turned self.old self.new };
}
