//! Pass two: the names to which objects send become numbers of objects.
ghost use Rattle.std.specs.Prelude.{◌≤◌, length};
ghost use Rattle.model_core.specs.declared.limits.TheConstants.{MOST_OBJECTS};
ghost use Rattle.text_fields.specs.Checks.{Gives};
ghost use Rattle.text_fields.specs.Directories.{finder};
ghost use Rattle.model_text.specs.Objects.{linked_item, linked_from};

use crate::kinds::linked_kind;
use crate::named::NamedItem;
use queue_models::Item;
use std::alloc::Global;
use text_fields::{Directory, Refusal};

/// An object, with numbers of objects in place of their names.
fn linked_item(
    alloc: Global,
    directory: &Directory,
    object: NamedItem,
    item: u32,
) -> Result<Item, Refusal>
    ensures { Gives (λ item. item) result (linked_item (finder directory.now) item object) }
{
    let kind = linked_kind(alloc, directory, object.kind, item)?;
    Ok(Item {
        name: object.name,
        kind,
        rank: object.rank,
        quiet: object.quiet,
        trace: object.trace,
    })
}

/// The objects one after another, the first with item 1.
pub(crate) fn linked_items(
    alloc: Global,
    directory: &Directory,
    objects: Vec<NamedItem>,
) -> Result<Vec<Item>, Refusal>
    requires { length objects.items ≤ MOST_OBJECTS }
    ensures { Gives (λ items. items.items) result (linked_from (finder directory.now) 1 objects.items) }
{
    let mut items = Vec::with_capacity(alloc, objects.len())?;
    for object in objects {
        let item = items.len() as u32 + 1;
        items.push(linked_item(alloc, directory, object, item)?)?;
    }
    Ok(items)
}
