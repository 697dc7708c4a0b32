//! What stays the same while the totals of a shop are told.
ghost use Rattle.std.specs.Prelude.{◌≡◌, ◌<◌, ◌^◌, ◌++◌, OnOk};
ghost use Rattle.shop_model.specs.Meaning.{shop_meaning};
ghost use Rattle.shop_model.specs.Views.{parts_of};
ghost use Rattle.shop_totals.specs.Forms.{named, named_line};

use crate::form::LineForm;
use crate::line::Line;
use model_core::OutOfMemory;
use model_core::model::Model;
use shop_model::Shop;
use std::alloc::Global;

/// What stays the same from line to line: how they are printed, of which shop they tell, and until when ticks count.
#[derive(Drop)]
pub struct Listing<'a, F> {
    pub alloc: Global,
    pub form: &'a F,
    pub shop: &'a Shop,
    /// The ticks before it count. It is below 2^48.
    pub clock: u64,
    ghost soon: { clock < 2 ^ 48 },
}

impl<F: LineForm> Listing<'_, F> {
    /// Appends the name of a station or a class with which a line begins. Where memory runs out, each method here may have
    /// appended some of its text.
    #[tactic(auto, unfolding(shop_model::specs::Meaning::shop_meaning))]
    pub(crate) fn put_named(&self, object: u32, into: &mut Vec<u8>) -> Result<(), OutOfMemory>
        requires { object < (shop_meaning (parts_of self.now.shop.now)).objects }
        ensures { OnOk result (into.new.items ≡ into.old.items ++ named (F.form self.now.form.now) (parts_of self.now.shop.now) object) }
    {
        self.form.put_before(into)?;
        self.shop.put_name(self.alloc, object, into)?;
        Ok(())
    }

    /// Appends the line of a station or a class.
    pub(crate) fn put_line(
        &self,
        object: u32,
        line: &Line,
        into: &mut Vec<u8>,
    ) -> Result<(), OutOfMemory>
        requires { object < (shop_meaning (parts_of self.now.shop.now)).objects }
        ensures { OnOk result
            (into.new.items ≡ into.old.items ++ named_line (F.form self.now.form.now) (parts_of self.now.shop.now) object line.now) }
    {
        self.put_named(object, into)?;
        self.form.put_line(self.alloc, line, into)?;
        Ok(())
    }
}
