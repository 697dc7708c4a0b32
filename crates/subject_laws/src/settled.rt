//! Circuits: pins follow the gates that feed them, and a circuit where nothing is pending has settled.
ghost use Rattle.subject_laws.specs.Settled.{SettlingLaw, StillPinsLaw, SettledLaw};

/// In every reached state all that is on its way to a pin makes it, in the order in which it comes, what the gate that feeds
/// it puts out now. And each gate puts out the value of its pins, unless it has yet to compute at the start. So a pin to which
/// no level is on its way is what its gate puts out. And where nothing is pending a circuit has settled: this holds of each
/// pin, and each gate that computes puts out the value of its pins.
pub fn law_settled()
    ensures arriving { SettlingLaw }
    ensures pins { StillPinsLaw }
    ensures settled { SettledLaw }
{}
