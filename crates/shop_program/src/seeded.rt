//! A shop under another seed.
ghost use Rattle.std.specs.Prelude.{◌≡◌, ◌<◌, ◌^◌};
ghost use Rattle.std.specs.Arc.{arc_value};

use delta_exchange::{Cells, OutOfMemory};
use model_core::model::Model as SimulationModel;
use model_core::{Effect, Ending, Event, Start};
use random_streams::Stream;
use shop_model::Shop;
use std::alloc::Global;
use std::sync::Arc;

/// A shop with a seed in place of its own, and the same parts: nothing of them is copied.
#[derive(Drop)]
pub struct SeededShop {
    shop: Arc<Shop>,
    seed: u64,
    ghost in_range: { seed < 2 ^ 63 },
}

impl SeededShop {
    ghost use Rattle.shop_program.specs.SeededShops.{shop_seeded};

    /// The shop with this seed, which is below 2^63.
    pub fn new(shop: Arc<Shop>, seed: u64) -> SeededShop
        requires { seed < 2 ^ 63 }
        ensures seed { result.seed ≡ seed }
        ensures shop { shop_seeded result ≡ arc_value shop }
    {
        SeededShop { shop, seed }
    }

    /// The shop, with its own seed.
    pub fn shop(&self) -> &Shop
        ensures { result.now ≡ shop_seeded self.now }
    {
        &*self.shop
    }
}

#[tactic(auto, unfolding(shop_model::specs::Meaning::shop_meaning, shop_model::specs::Meaning::lawful_at, shop_model::specs::Meaning::first_at, shop_model::specs::Meaning::name_at))]
impl SimulationModel for SeededShop {
    ghost use Rattle.shop_program.specs.SeededShops.{seeded_meaning, seeded_laws};

    ghost meaning = { seeded_meaning };

    ghost laws = { seeded_laws };

    fn objects(&self) -> u32 {
        self.shop.objects()
    }

    fn starts(&self) -> u32 {
        self.shop.starts()
    }

    fn start(&self, i: u32) -> Start {
        self.shop.start(i)
    }

    fn first_cells(&self, alloc: Global, object: u32) -> Result<Cells, OutOfMemory> {
        self.shop.first_cells(alloc, object)
    }

    fn is_lawful(&self, object: u32, cells: &Cells) -> bool {
        self.shop.is_lawful(object, cells)
    }

    fn respond(
        &self,
        words: &mut Stream,
        object: u32,
        cells: &Cells,
        event: &Event,
        sheet: &mut Effect,
    ) -> Result<Ending, OutOfMemory> {
        self.shop
            .respond_under(self.seed, words, object, cells, event, sheet)
    }

    fn put_name(&self, alloc: Global, object: u32, into: &mut Vec<u8>) -> Result<(), OutOfMemory> {
        self.shop.put_name(alloc, object, into)
    }

    fn word(&self, number: u32) -> Option<&'static str> {
        self.shop.word(number)
    }

    fn fault(&self, code: u32) -> Option<&'static str> {
        self.shop.fault(code)
    }
}
