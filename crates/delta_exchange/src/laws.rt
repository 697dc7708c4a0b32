//! Laws of the definitions, each the contract of a function that does nothing.
ghost use Rattle.delta_exchange.specs.Undoing.{UndoingRestores, UndoingTheLastRestores};
ghost use Rattle.delta_exchange.specs.Undoing.{UndoingTheFirstRestores, RoomIsEnough};
ghost use Rattle.delta_exchange.specs.Undoing.{MoreSpareIsEnough, MoreSpareStays, FittingNamesLines};

/// Undoing the inverses of a list of changes gives back the changes, the cells and the spares.
pub fn law_undo()
    ensures { UndoingRestores }
{}

/// Undoing the inverses of the last changes of a list gives back those changes, and the cells and
/// spares after the others.
pub fn law_undo_last()
    ensures { UndoingTheLastRestores }
{}

/// Undoing the inverses of the first changes of a list, where only they were done, gives back those
/// changes, the cells and the spares.
#[tactic(auto, using(crate::proofs::Undoing::undoing_the_first_restores))]
pub fn law_undo_first()
    ensures { UndoingTheFirstRestores }
{}

/// Room for all that goes in at each line is room for each change at its turn.
#[tactic(auto, using(crate::proofs::Room::room_is_enough))]
pub fn law_room()
    ensures { RoomIsEnough }
{}

/// Changes that find room find it too where no spare is less.
#[tactic(auto, using(crate::proofs::Room::more_spare_is_enough))]
pub fn law_more_spare()
    ensures { MoreSpareIsEnough }
{}

/// Where no spare is less, none is less after the same changes.
pub fn law_more_spare_stays()
    ensures { MoreSpareStays }
{}

/// Changes that fit name lines that are there.
#[tactic(auto, using(crate::proofs::Room::fitting_names_lines))]
pub fn law_lines_named()
    ensures { FittingNamesLines }
{}
