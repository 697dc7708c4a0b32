//! How grave the stops of runs are.
ghost use Rattle.std.specs.Prelude.{◌≡◌};
ghost use Rattle.replications.specs.Studies.{graver};

use sim_spec::Stop;

/// The graver of two stops: a fault is graver than the limit, and that is graver than an end. Of two that are as grave it is
/// the first.
pub fn graver(first: Stop, second: Stop) -> Stop
    ensures { result ≡ graver first second }
{
    match first {
        Stop::End => second,
        Stop::Limit => match second {
            Stop::Fault { .. } => second,
            _ => first,
        },
        Stop::Fault { .. } => first,
    }
}
