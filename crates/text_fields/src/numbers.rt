//! Arrays of numbers.
ghost use Rattle.std.specs.Prelude.{◌≡◌, ◌≤◌, length, All, IfOk};
ghost use Rattle.toml.specs.View.{items_view};
ghost use Rattle.text_fields.specs.Checks.{Gives};
ghost use Rattle.text_fields.specs.Fields.{number, each};

use crate::fields::number;
use crate::refusal::Refusal;
use std::alloc::Global;
use toml::Value;

/// The numbers of an array, none of them above the greatest.
pub fn numbers_of(
    alloc: Global,
    values: &[Value],
    item: u32,
    most: u64,
) -> Result<Vec<u64>, Refusal>
    ensures read { Gives (λ numbers. numbers.items) result (each (number item 0 most) (items_view values.now)) }
    ensures count { IfOk result (λ numbers. length numbers.items ≡ length values.now) }
    ensures small { IfOk result (λ numbers. All (λ n. n ≤ most) numbers.items) }
{
    let mut numbers = Vec::new(alloc);
    for value in values {
        numbers.push(number(value, item, 0, most)?)?;
    }
    Ok(numbers)
}
