//! The reader of these texts, for programs that take any reader.
use crate::model::AnyModel;
use crate::top::read_model;
use crate::totals::ModelTotals;
use model_reader::ModelReader;
use sim_spec::Terms;
use std::alloc::Global;
use text_fields::{Refusal, code_name};

/// The reader of these texts.
#[derive(Clone, Copy)]
pub struct ModelTexts;

impl ModelReader for ModelTexts {
    ghost use Rattle.model_text.specs.Readers.{model_texts, model_texts_laws};

    type Model = AnyModel;

    type Tally = ModelTotals;

    ghost reading = { model_texts };

    ghost laws = { model_texts_laws };

    fn read(&self, alloc: Global, bytes: &[u8]) -> Result<(AnyModel, Terms), Refusal> {
        read_model(alloc, bytes)
    }

    fn code_name(&self, code: u8) -> &'static str {
        code_name(code)
    }
}
