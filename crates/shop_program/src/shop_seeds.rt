//! A shop under every seed.
use crate::seeded::SeededShop;
use crate::shop_rows::ShopRows;
use model_core::OutOfMemory;
use replications::Seeds;
use shop_model::Shop;
use std::alloc::Global;
use std::sync::Arc;

/// A shop that was read of a text. It is shared by all its replications, and none copies it.
#[derive(Drop)]
pub struct ShopSeeds {
    pub shop: Arc<Shop>,
}

impl Seeds<SeededShop, ShopRows> for ShopSeeds {
    ghost use Rattle.std.specs.Arc.{arc_value};
    ghost use Rattle.shop_model.specs.Meaning.{shop_meaning};
    ghost use Rattle.shop_model.specs.ShopParts.{shop_under};
    ghost use Rattle.shop_model.specs.Views.{parts_of, counted_from};
    ghost use Rattle.shop_program.specs.RowForms.{shop_rows};

    ghost seeded = { λ seeds seed. shop_meaning (shop_under seed (parts_of (arc_value seeds.shop))) };

    ghost rows = { λ seeds _. shop_rows (parts_of (arc_value seeds.shop)) (counted_from (arc_value seeds.shop)) };

    fn with_seed(&self, alloc: Global, seed: u64) -> Result<Arc<SeededShop>, OutOfMemory> {
        let shop = self.shop.clone()?;
        let seeded = Arc::new(alloc, SeededShop::new(shop, seed))?;
        Ok(seeded)
    }
}
