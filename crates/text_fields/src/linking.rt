//! Names become the numbers of those that have them.
ghost use Rattle.text_fields.specs.Checks.{Gives};
ghost use Rattle.text_fields.specs.Directories.{finder};
ghost use Rattle.text_fields.specs.Links.{link, links};

use crate::directory::Directory;
use crate::refusal::{Cause, Refusal};
use model_core::{Name, Sequence};
use std::alloc::Global;

/// The number of what has this name, which may not be a source.
pub fn link(directory: &Directory, name: &[u8], item: u32) -> Result<u32, Refusal>
    ensures { Gives (λ number. number) result (link (finder directory.now) item name.now) }
{
    match directory.find(name) {
        Some(place) if place.takes_links => Ok(place.number),
        _ => Err(Cause::BadLink.at(item)),
    }
}

/// The numbers of those that have these names, none of which may be a source.
pub fn links(
    alloc: Global,
    directory: &Directory,
    names: &[Name],
    item: u32,
) -> Result<Sequence<u32>, Refusal>
    ensures { Gives (λ numbers. numbers) result (links (finder directory.now) item names.now) }
{
    let mut numbers = Vec::new(alloc);
    for name in names {
        numbers.push(link(directory, name.bytes(), item)?)?;
    }
    Ok(Sequence::new(numbers))
}
