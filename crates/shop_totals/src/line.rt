//! The kinds of lines of totals.
use crate::class_sums::ClassSums;
use crate::station_sums::StationSums;
use crate::visit_sums::VisitSums;

/// What a line of totals tells behind its name.
#[derive(Clone, Copy, Debug, PartialEq, Eq)]
pub enum Line {
    /// The sums of a station.
    Station(StationSums),
    /// Those of a class at a station.
    Visit(VisitSums),
    /// Those of a class.
    Class(ClassSums),
}
