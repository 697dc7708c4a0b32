//! The reader of texts of shops, for programs that write tables.
use crate::row_form::SHOP_HEAD;
use crate::seeded::SeededShop;
use crate::shop_rows::ShopRows;
use crate::shop_seeds::ShopSeeds;
use replications::WindowStart;
use shop_model::{Class, Shop};
use shop_text::{Refusal, code_name, read_shop};
use std::alloc::Global;
use std::sync::Arc;
use table_program::{Family, FamilyReader};

/// How many bytes a row has at most: a seed of 19 digits, two names of 16 bytes, five sums of 20 digits and four of 39, and
/// the rest.
const ROW_BYTES: u64 = 384;

/// How many rows a shop has at most: one for each station and class, and one for each step, which is at one station at most.
fn most_rows(shop: &Shop) -> u64 {
    let classes: &[Class] = shop.classes();
    let mut rows = shop.stations().len() as u64;
    for class in classes {
        let steps = class.route.as_slice().len() as u64;
        rows = rows.saturating_add(steps).saturating_add(1);
    }
    rows
}

/// The reader of texts of shops, and of the rows of their totals.
#[derive(Clone, Copy)]
pub struct ShopTables;

impl FamilyReader for ShopTables {
    ghost use Rattle.shop_program.specs.ShopFamilies.{shop_tables, shop_tables_laws};

    type Model = SeededShop;

    type Rows = ShopRows;

    type Models = ShopSeeds;

    ghost reading = { shop_tables };

    ghost laws = { shop_tables_laws };

    fn head(&self) -> &'static str {
        SHOP_HEAD
    }

    fn window_start(&self) -> WindowStart {
        WindowStart::Model
    }

    #[tactic(auto, unfolding(crate::specs::ShopFamilies::family_of_text))]
    fn read_family(&self, alloc: Global, bytes: &[u8]) -> Result<Family<ShopSeeds>, Refusal> {
        let (shop, terms) = read_shop(alloc, bytes)?;
        let seed = shop.seed();
        let row_bytes = most_rows(&shop).saturating_mul(ROW_BYTES);
        let shop = Arc::new(alloc, shop)?;
        Ok(Family {
            models: ShopSeeds { shop },
            terms,
            seed,
            row_bytes,
        })
    }

    fn code_name(&self, code: u8) -> &'static str {
        code_name(code)
    }
}
