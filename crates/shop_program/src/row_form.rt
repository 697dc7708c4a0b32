//! The rows of a table of a shop.
ghost use Rattle.std.specs.Prelude.{◌≡◌, ◌++◌, OnOk};
ghost use Rattle.shop_program.specs.RowForms.{flow_fields, station_fields, visit_fields, count_fields, class_fields, line_fields};

use model_core::OutOfMemory;
use replications::{RunEnd, put_end, put_field, put_seed};
use shop_totals::{ClassSums, Flow, Line, LineForm, StationSums, VisitSums};
use std::alloc::Global;

/// The head line of a table.
pub const SHOP_HEAD: &str =
    "seed,line,came,begun,done,lost,reneged,busy,waiting,open,down,waited,made,left,dropped,late,ages,inside,ticks,events,stop\n";

/// Rows with a column for each number of the lines of totals.
#[derive(Clone, Copy, Debug, PartialEq, Eq)]
pub struct RowForm {
    /// How many ticks count.
    pub ticks: u64,
    pub end: RunEnd,
}

/// Appends what came of jobs. Where memory runs out, each call here may have appended some of its text.
#[tactic(auto, unfolding(crate::specs::RowForms::flow_fields))]
fn put_flow(flow: &Flow, into: &mut Vec<u8>) -> Result<(), OutOfMemory>
    ensures { OnOk result (into.new.items ≡ into.old.items ++ flow_fields flow.now) }
{
    into.push(b',')?;
    put_field(flow.came, into)?;
    put_field(flow.begun, into)?;
    put_field(flow.done, into)?;
    put_field(flow.lost, into)?;
    put_field(flow.reneged, into)
}

/// Appends the ticks of a station.
#[tactic(auto, unfolding(crate::specs::RowForms::station_fields))]
fn put_station_fields(sums: &StationSums, into: &mut Vec<u8>) -> Result<(), OutOfMemory>
    ensures { OnOk result (into.new.items ≡ into.old.items ++ station_fields sums.now) }
{
    put_field(sums.busy.ticks, into)?;
    put_field(sums.waiting.ticks, into)?;
    put_field(sums.opened.ticks, into)?;
    put_field(sums.down.ticks, into)?;
    into.extend_from_slice(b",,,,,,,")?;
    Ok(())
}

/// Appends the ticks that a class waited at a station.
#[tactic(auto, unfolding(crate::specs::RowForms::visit_fields))]
fn put_visit_fields(sums: &VisitSums, into: &mut Vec<u8>) -> Result<(), OutOfMemory>
    ensures { OnOk result (into.new.items ≡ into.old.items ++ visit_fields sums.now) }
{
    into.extend_from_slice(b",,,,")?;
    put_field(sums.waited, into)?;
    into.extend_from_slice(b",,,,,,")?;
    Ok(())
}

/// Appends the counts of a class.
#[tactic(auto, unfolding(crate::specs::RowForms::count_fields))]
fn put_counts(sums: &ClassSums, into: &mut Vec<u8>) -> Result<(), OutOfMemory>
    ensures { OnOk result (into.new.items ≡ into.old.items ++ count_fields sums.now) }
{
    into.extend_from_slice(b",,,,,,,,,,,")?;
    put_field(sums.made, into)?;
    put_field(sums.left, into)?;
    put_field(sums.dropped, into)?;
    put_field(sums.late, into)
}

/// Appends the columns of a class.
#[tactic(auto, unfolding(crate::specs::RowForms::class_fields))]
fn put_class_fields(sums: &ClassSums, into: &mut Vec<u8>) -> Result<(), OutOfMemory>
    ensures { OnOk result (into.new.items ≡ into.old.items ++ class_fields sums.now) }
{
    put_counts(sums, into)?;
    put_field(sums.ages, into)?;
    put_field(sums.inside.ticks, into)
}

/// Appends the columns of a line.
fn put_fields(line: &Line, into: &mut Vec<u8>) -> Result<(), OutOfMemory>
    ensures { OnOk result (into.new.items ≡ into.old.items ++ line_fields line.now) }
{
    match line {
        Line::Station(sums) => {
            put_flow(&sums.flow, into)?;
            put_station_fields(sums, into)
        }
        Line::Visit(sums) => {
            put_flow(&sums.flow, into)?;
            put_visit_fields(sums, into)
        }
        Line::Class(sums) => put_class_fields(sums, into),
    }
}

impl LineForm for RowForm {
    ghost use Rattle.shop_program.specs.RowForms.{row_form};

    ghost form = { λ row. row_form row.ticks row.end };

    fn put_before(&self, into: &mut Vec<u8>) -> Result<(), OutOfMemory> {
        put_seed(self.end.seed, into)
    }

    fn put_line(&self, _alloc: Global, line: &Line, into: &mut Vec<u8>) -> Result<(), OutOfMemory> {
        put_fields(line, into)?;
        put_end(self.ticks, &self.end, into)
    }
}
