//! What a state text says.
use model_core::Event;
use sim_spec::ObjectState;

/// What the lines of a state text say, with the bytes and the line of its model.
#[derive(Drop)]
pub(crate) struct Draft<'a> {
    pub objects: Vec<ObjectState>,
    pub pending: Vec<Event>,
    pub count: u64,
    pub model: &'a [u8],
    pub line: u64,
}
