//! Classes as a text tells of them: stations are given by their names, and steps by their labels.
use model_core::{Name, Sequence};
use random_streams::{DelayLaw, Weights};
use shop_model::Class;
use text_fields::Directory;

/// The station of a visit, and the steps to which a job goes that isn't served.
#[derive(Drop)]
pub(crate) struct VisitNames {
    pub(crate) station: Name,
    pub(crate) away: Name,
    pub(crate) full: Name,
}

/// A visit of a station.
#[derive(Drop)]
pub(crate) struct NamedVisit {
    pub(crate) names: VisitNames,
    pub(crate) service: Option<DelayLaw>,
    pub(crate) patience: Option<DelayLaw>,
}

/// A step of a route.
#[derive(Drop)]
pub(crate) enum NamedStep {
    Visit(NamedVisit),
    Free {
        station: Name,
    },
    Delay {
        law: DelayLaw,
    },
    Go {
        steps: Sequence<Name>,
        weights: Weights,
    },
}

/// A class.
#[derive(Drop)]
pub(crate) struct NamedClass<'a> {
    /// What it is but for its route, which is empty until it is linked.
    pub(crate) class: Class,
    pub(crate) route: Vec<NamedStep>,
    /// The labels of its steps.
    pub(crate) labels: Directory<'a>,
}
