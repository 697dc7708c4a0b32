//! What takes records.
ghost use Rattle.std.specs.Prelude.{List};
ghost use Rattle.event_key.specs.declared.key.Key.{Key};
ghost use Rattle.model_core.specs.declared.note.Note.{Note};
ghost use Rattle.model_core.specs.Meaning.{Meaning};

use model_core::RecordBuffer;

/// What takes records, one after another.
///
/// How it takes one is a closure over it and no method here: no method of a trait can call a function that is generic in a
/// model, since threads share that.
pub trait Recorder {
    /// That it has what is told of these records of a model that means this.
    ghost holds: { Meaning → Self → List (Key × Note) → Type 0 };
}

impl Recorder for RecordBuffer {
    ghost use Rattle.std.specs.Prelude.{◌≡◌};

    ghost holds = { λ _ buffer records. buffer.items ≡ records };
}
