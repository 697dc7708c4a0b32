//! The law of formats. Its function does nothing: its contract is the law.
ghost use Rattle.model_text.specs.FormatLaws.{FirstIsSecond};

/// A document that is a model in the first format is the same model, with the same terms, in the second.
pub fn law_formats()
    ensures { FirstIsSecond }
{}
