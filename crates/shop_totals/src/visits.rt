//! Which classes visit a station.
ghost use Rattle.std.specs.Prelude.{◌≡◌, ◌++◌, ◌∷◌, [], if◌then◌else◌, IfOk, OnOk};
ghost use Rattle.shop_model.specs.Views.{parts_of};
ghost use Rattle.shop_totals.specs.Visits.{is_visit, has_visit, classes_at};

use model_core::OutOfMemory;
use shop_model::{Class, Shop, Step};
use std::alloc::Global;

/// Whether at a step a job is served at a station or takes a server of it.
fn is_visit(station: u32, step: &Step) -> bool
    ensures { result ≡ is_visit station step.now }
{
    matches!(step, Step::Visit(visit) if visit.station == station)
}

/// Whether the route of a class has such a step.
fn has_visit(station: u32, class: &Class) -> bool
    ensures { result ≡ has_visit station class.now }
{
    let mut steps = class.route.as_slice().iter();
    steps.any(|step| is_visit(station, step))
}

/// Lists the number of a class, if its route has such a step.
fn list_visitor(
    station: u32,
    class: &Class,
    number: u64,
    found: &mut Vec<u64>,
) -> Result<(), OutOfMemory>
    ensures { OnOk result (found.new.items ≡ found.old.items ++ (if has_visit station class.now then number ∷ [] else [])) }
{
    if has_visit(station, class) {
        found.push(number)?;
    }
    Ok(())
}

/// The classes with such a step, in order. It looks at each step of the shop.
pub(crate) fn classes_at(alloc: Global, shop: &Shop, station: u32) -> Result<Vec<u64>, OutOfMemory>
    ensures { IfOk result (λ classes. classes.items ≡ classes_at (parts_of shop.now) station) }
{
    let mut found = Vec::new(alloc);
    let classes = shop.classes();
    for class in 0..classes.len() {
        list_visitor(station, &classes[class], class as u64, &mut found)?;
    }
    Ok(found)
}
