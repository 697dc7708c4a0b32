//! The totals of a shop under a seed, as rows.
use crate::row_form::RowForm;
use crate::seeded::SeededShop;
use event_key::Key;
use model_core::{OutOfMemory, Part};
use replications::{Rows, RunEnd};
use run_tally::Tally;
use shop_model::Shop;
use shop_totals::{Listing, ShopTotals};
use sim_spec::Terms;
use std::alloc::Global;

/// The totals of a shop, in a row for each line.
#[derive(Drop)]
pub struct ShopRows {
    totals: ShopTotals,
}

impl Rows<SeededShop> for ShopRows {
    ghost use Rattle.shop_model.specs.Views.{parts_of, counted_from};
    ghost use Rattle.shop_program.specs.RowForms.{shop_rows};
    ghost use Rattle.shop_program.specs.SeededShops.{shop_seeded};
    ghost use Rattle.shop_totals.specs.Summed.{SumsUp};

    ghost rows_of = { λ seeded. shop_rows (parts_of (shop_seeded seeded)) (counted_from (shop_seeded seeded)) };

    ghost sums_up = { λ seeded _ kept records. SumsUp (shop_seeded seeded) kept.totals records };

    fn new(alloc: Global, model: &SeededShop, _first_tick: u64) -> Result<ShopRows, OutOfMemory> {
        let totals = <ShopTotals as Tally<Shop>>::new(alloc, model.shop())?;
        Ok(ShopRows { totals })
    }

    fn add(&mut self, model: &SeededShop, key: &Key, parts: &[Part]) {
        <ShopTotals as Tally<Shop>>::add(&mut self.totals, model.shop(), key, parts);
    }

    fn put(
        &self,
        alloc: Global,
        model: &SeededShop,
        terms: &Terms,
        end: &RunEnd,
        into: &mut Vec<u8>,
    ) -> Result<(), OutOfMemory> {
        let shop = model.shop();
        let clock = self.totals.clock(terms, &end.stop);
        let form = RowForm {
            ticks: clock.saturating_sub(shop.counted_from()),
            end: *end,
        };
        let listing = Listing {
            alloc,
            form: &form,
            shop,
            clock,
        };
        self.totals.put_by(&listing, into)?;
        Ok(())
    }
}
