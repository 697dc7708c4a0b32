//! The reader of these texts, for programs that take any reader.
use crate::top::read_shop;
use model_reader::ModelReader;
use shop_model::Shop;
use shop_totals::ShopTotals;
use sim_spec::Terms;
use std::alloc::Global;
use text_fields::{Refusal, code_name};

/// The reader of these texts.
#[derive(Clone, Copy)]
pub struct ShopTexts;

impl ModelReader for ShopTexts {
    ghost use Rattle.shop_text.specs.Readers.{shop_texts, shop_texts_laws};

    type Model = Shop;

    type Tally = ShopTotals;

    ghost reading = { shop_texts };

    ghost laws = { shop_texts_laws };

    fn read(&self, alloc: Global, bytes: &[u8]) -> Result<(Shop, Terms), Refusal> {
        read_shop(alloc, bytes)
    }

    fn code_name(&self, code: u8) -> &'static str {
        code_name(code)
    }
}
