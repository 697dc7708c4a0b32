//! Tables of replications: what names of numbers stand for.
ghost use Rattle.replicate_program.specs.Numbers.{Numbers};

/// What the names of the limits and defaults of `replicate` stand for.
pub fn law_numbers()
    ensures { Numbers }
{}
