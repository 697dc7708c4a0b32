//! What a text describes.
use crate::model::AnyModel;
use sim_spec::Terms;

/// A model that was read, how far its simulation goes, and the seed that its text gives, which is 0 where it gives none.
#[derive(Drop)]
pub struct ReadModel {
    pub model: AnyModel,
    pub terms: Terms,
    /// Below 2^63.
    pub seed: u64,
}
