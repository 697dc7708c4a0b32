//! What happens at a class, by the kind of the event.
ghost use Rattle.std.specs.Prelude.{◌≡◌, IsTrue};
ghost use Rattle.model_core.specs.Effects.{blank};
ghost use Rattle.shop_model.specs.Parts.{AreRoutes, IsClass};
ghost use Rattle.shop_model.specs.ShopPartsProps.{AreRoutes-prop, IsClass-prop};
ghost use Rattle.shop_model.specs.Classes.{IsAtClass, is_class_cells};
ghost use Rattle.shop_model.specs.Meaning.{job_here, home_by, class_effect};

use crate::class::Class;
use crate::kinds::{COME, MAKE};
use crate::routes::Routes;
use crate::site::Site;
use model_core::{Cells, Effect, Event};
use random_streams::Stream;

/// An event at a class, and what it finds there.
#[derive(Clone, Copy)]
pub struct ClassEvent<'a> {
    pub class: &'a Class,
    pub site: Site,
    pub routes: &'a Routes,
    pub cells: &'a Cells,
    pub event: &'a Event,
    ghost known_routes: { AreRoutes routes.now } by { AreRoutes-prop routes.now },
    ghost in_range: { IsClass routes.now.stations class.now } by { IsClass-prop routes.now.stations class.now },
    ghost here: { IsAtClass routes.now site },
    ghost lawful: { IsTrue (is_class_cells class.now.count cells.now.contents) },
}

impl ClassEvent<'_> {
    /// What the event does, written into a blank sheet.
    #[tactic(auto, unfolding(crate::specs::Meaning::class_effect))]
    #[inline(always)]
    pub(crate) fn react(&self, words: &mut Stream, sheet: &mut Effect)
        requires { sheet.old ≡ blank }
        ensures { let at = self.now in
            sheet.new ≡ class_effect at.site at.routes.now at.class.now at.cells.now.contents at.event.now }
    {
        match self.event.kind {
            MAKE => self.make(words, sheet),
            COME => self.come_here(words, sheet),
            _ => {}
        }
    }

    /// A job comes, if it stands here at its step.
    fn come_here(&self, words: &mut Stream, sheet: &mut Effect)
        requires { sheet.old ≡ blank }
        ensures { let at = self.now in
            sheet.new ≡ home_by at.site at.routes.now at.class.now at.cells.now.contents at.event.now
            (job_here at.routes.now at.site.object at.event.now.a) }
    {
        if let Some(job) = self.routes.job_here(self.site.object, self.event.a) {
            self.come(words, job, sheet);
        }
    }
}
