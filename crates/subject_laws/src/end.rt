//! Runs of any model: nothing happens past the end.
ghost use Rattle.subject_laws.specs.EndLaws.{RecordsEnd, TotalsEnd};

/// Nothing happens past the end: each record of a run, of whatever model, is of its last tick or an earlier one. So the last
/// word of an object, up to which its totals sum, is told by then too.
pub fn law_end()
    ensures records { RecordsEnd }
    ensures totals { TotalsEnd }
{}
