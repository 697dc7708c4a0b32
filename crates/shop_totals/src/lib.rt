//! Totals of a shop: for each station, each class at a station and each class what came of its jobs, and for how many ticks
//! servers were busy, open or down, jobs waited, and jobs were inside, as sums over what is told from a tick on.
#![tactic(auto)]

mod class_sums;
mod flow;
mod form;
mod kept;
mod line;
mod lines;
mod listing;
mod shop_totals;
mod station_sums;
mod station_totals;
mod visit_sums;
mod visits;

pub use class_sums::ClassSums;
pub use flow::Flow;
pub use form::{LineForm, TotalLines};
pub use kept::Kept;
pub use line::Line;
pub use listing::Listing;
pub use shop_totals::ShopTotals;
pub use station_sums::StationSums;
pub use station_totals::StationTotals;
pub use visit_sums::VisitSums;
