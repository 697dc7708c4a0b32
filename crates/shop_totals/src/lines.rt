//! The lines of totals, each after the name of a station or a class.
ghost use Rattle.std.specs.Prelude.{◌≡◌, ◌++◌, OnOk};
ghost use Rattle.shop_totals.specs.Lines.{flow_text, station_text, visit_text, counts_text, class_text};

use crate::class_sums::ClassSums;
use crate::flow::Flow;
use crate::station_sums::StationSums;
use crate::visit_sums::VisitSums;
use model_core::OutOfMemory;
use std::alloc::Global;

impl Flow {
    /// Appends what is printed of it. Where memory runs out, it may have appended some of it.
    #[tactic(auto, unfolding(crate::specs::Lines::flow_text))]
    pub fn put(&self, alloc: Global, into: &mut Vec<u8>) -> Result<(), OutOfMemory>
        ensures { OnOk result (into.new.items ≡ into.old.items ++ flow_text self.now) }
    {
        let text = format!(in alloc;
            " came {} begun {} done {} lost {} reneged {}",
            self.came, self.begun, self.done, self.lost, self.reneged
        )?;
        into.extend_from_slice(text.as_bytes())?;
        Ok(())
    }
}

impl StationSums {
    /// Appends what is printed of a station. Where memory runs out, it may have appended some of it.
    #[tactic(auto, unfolding(crate::specs::Lines::station_text))]
    pub fn put(&self, alloc: Global, into: &mut Vec<u8>) -> Result<(), OutOfMemory>
        ensures { OnOk result (into.new.items ≡ into.old.items ++ station_text self.now) }
    {
        self.flow.put(alloc, into)?;
        let text = format!(in alloc;
            " busy {} waiting {} open {} down {}\n",
            self.busy.ticks, self.waiting.ticks, self.opened.ticks, self.down.ticks
        )?;
        into.extend_from_slice(text.as_bytes())?;
        Ok(())
    }
}

impl VisitSums {
    /// Appends what is printed of a class at a station. Where memory runs out, it may have appended some of it.
    #[tactic(auto, unfolding(crate::specs::Lines::visit_text))]
    pub fn put(&self, alloc: Global, into: &mut Vec<u8>) -> Result<(), OutOfMemory>
        ensures { OnOk result (into.new.items ≡ into.old.items ++ visit_text self.now) }
    {
        self.flow.put(alloc, into)?;
        let text = format!(in alloc; " waited {}\n", self.waited)?;
        into.extend_from_slice(text.as_bytes())?;
        Ok(())
    }
}

impl ClassSums {
    /// Appends the counts. Where memory runs out, it may have appended some of them.
    #[tactic(auto, unfolding(crate::specs::Lines::counts_text))]
    fn put_counts(&self, alloc: Global, into: &mut Vec<u8>) -> Result<(), OutOfMemory>
        ensures { OnOk result (into.new.items ≡ into.old.items ++ counts_text self.now) }
    {
        let text = format!(in alloc;
            " made {} left {} dropped {} late {}",
            self.made, self.left, self.dropped, self.late
        )?;
        into.extend_from_slice(text.as_bytes())?;
        Ok(())
    }

    /// Appends what is printed of a class. Where memory runs out, it may have appended some of it.
    #[tactic(auto, unfolding(crate::specs::Lines::class_text))]
    pub fn put(&self, alloc: Global, into: &mut Vec<u8>) -> Result<(), OutOfMemory>
        ensures { OnOk result (into.new.items ≡ into.old.items ++ class_text self.now) }
    {
        self.put_counts(alloc, into)?;
        let text = format!(in alloc; " ages {} inside {}\n", self.ages, self.inside.ticks)?;
        into.extend_from_slice(text.as_bytes())?;
        Ok(())
    }
}
