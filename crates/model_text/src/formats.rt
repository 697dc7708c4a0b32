//! The formats of a text.
ghost use Rattle.toml.specs.View.{view};
ghost use Rattle.text_fields.specs.Checks.{Gives};
ghost use Rattle.model_text.specs.Formats.{format_of};

use text_fields::{Cause, Refusal};
use toml::Value;

/// The formats, oldest first: each has all that those before it have, and what it adds is unknown to them.
#[derive(Clone, Copy, Debug, PartialEq, Eq)]
pub(crate) enum Format {
    One,
    Two,
}

impl Format {
    ghost use Rattle.std.specs.Prelude.{◌≡◌};
    ghost use Rattle.model_text.specs.Formats.{has_circuits};

    /// Whether a text of this format may be a circuit.
    pub(crate) fn has_circuits(self) -> bool
        ensures { result ≡ has_circuits self }
    {
        match self {
            Format::One => false,
            Format::Two => true,
        }
    }
}

/// The format with this number.
pub(crate) fn format_of(value: &Value) -> Result<Format, Refusal>
    ensures { Gives (λ format. format) result (format_of (view value.now)) }
{
    match value.as_integer() {
        Some(1) => Ok(Format::One),
        Some(2) => Ok(Format::Two),
        _ => Err(Cause::BadValue.at(0)),
    }
}
