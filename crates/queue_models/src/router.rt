//! Routers: where jobs part.
ghost use Rattle.std.specs.Prelude.{◌≡◌, ◌<◌, IsTrue, length, slice_index};
ghost use Rattle.random_streams.specs.Laws.{is_choice};
ghost use Rattle.model_core.specs.Effects.{blank, outcome_by};
ghost use Rattle.queue_models.specs.Sites.{is_plain_cells};
ghost use Rattle.queue_models.specs.Routers.{router_effect};

use crate::site::{ObjectEvent, Site, told};
use model_core::{Effect, Ending, ROUTED_WORD, Sequence, keep_place};
use random_streams::{Stream, Weights, choose_by};

/// What sends each job at once one of several ways.
#[derive(Drop)]
pub struct Router<L> {
    /// The ways, 1 to 64 objects.
    pub next: Sequence<L>,
    /// A weight for each of them: a way is drawn in proportion to its weight.
    pub weights: Weights,
}

impl<L: Drop> Router<L> {
    /// This router, with other objects to which it sends.
    pub fn sending_to<M>(self, next: Sequence<M>) -> Router<M>
        ensures { result ≡ record { next = next; weights = self.weights } }
    {
        Router {
            next,
            weights: self.weights,
        }
    }
}

impl Router<u32> {
    /// Routes a job. A word is drawn also where there is no choice.
    #[tactic(auto, unfolding(crate::specs::Routers::router_effect))]
    pub(crate) fn react(&self, words: &mut Stream, at: &ObjectEvent, sheet: &mut Effect) -> Ending
        requires weights { length self.now.weights ≡ length self.now.next }
        requires choice { IsTrue (is_choice self.now.weights) }
        requires cells { IsTrue (is_plain_cells at.now.cells.now.contents) }
        requires blank { sheet.old ≡ blank }
        ensures { outcome_by result sheet.new ≡ router_effect at.now.site self.now at.now.cells.now.contents at.now.event.now }
    {
        let place = at.cells.word(0);
        let Site { seed, object, .. } = at.site;
        let (way, next_place) = choose_by(words, seed, object, place, &self.weights);
        let dest = self.chosen(way);
        keep_place(&mut sheet.changes, place, next_place);
        sheet
            .sends
            .push(at.site.job_to(dest, 0, at.event.a, at.event.b));
        sheet.note = told(ROUTED_WORD, at.event.a, u64::from(dest));
        Ending::Goes
    }

    /// The object that is chosen by its place.
    fn chosen(&self, way: u64) -> u32
        requires { way < length self.now.next }
        ensures { result ≡ slice_index self.now.next way }
    {
        self.next.as_slice()[way as usize]
    }
}
