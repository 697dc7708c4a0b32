//! What the values of options, and the numbers behind commands, say.
ghost use Rattle.std.specs.Prelude.{◌≡◌, ◌≤◌, IfOk};
ghost use Rattle.std.specs.Char.{is_ascii_digit};
ghost use Rattle.std.specs.List.{list_all};
ghost use Rattle.sim_io.specs.Words.{is_decimal, is_number, moves_named, number_within, placement_named};

use crate::words::WordFault;
use crate::words::moves::Moves;
use sim_spec::Placement;

/// Whether a word has no byte that isn't a digit.
fn has_digits(word: &str) -> bool
    ensures { result ≡ list_all is_ascii_digit word.now }
{
    word.as_bytes().iter().all(|byte| byte.is_ascii_digit())
}

/// Whether digits are some, without a zero before others.
pub fn is_decimal(digits: &[u8]) -> bool
    ensures { result ≡ is_decimal digits.now }
{
    !digits.is_empty() && !(digits.len() > 1 && digits.starts_with(b"0"))
}

/// Whether a word is one to nineteen digits, without a zero before others.
fn is_number(word: &str) -> bool
    ensures { result ≡ is_number word.now }
{
    is_decimal(word.as_bytes()) && word.len() <= 19 && has_digits(word)
}

/// The number that a word writes, if it lies between two.
pub fn number_within(least: u64, most: u64, word: &str) -> Result<u64, WordFault>
    ensures value { result ≡ number_within least most word.now }
    ensures low { IfOk result (λ number. least ≤ number) }
    ensures high { IfOk result (λ number. number ≤ most) }
{
    if !is_number(word) {
        return Err(WordFault::BadValue);
    }
    match word.parse::<u64>() {
        Ok(number) if least <= number && number <= most => Ok(number),
        _ => Err(WordFault::BadValue),
    }
}

/// The same of a number of 32 bits.
pub fn small_number_within(least: u32, most: u32, word: &str) -> Result<u32, WordFault>
    ensures value { result ≡ number_within least most word.now }
    ensures low { IfOk result (λ number. least ≤ number) }
    ensures high { IfOk result (λ number. number ≤ most) }
{
    let number = number_within(u64::from(least), u64::from(most), word)?;
    Ok(number as u32)
}

/// The placement that a word names.
pub fn placement_named(word: &str) -> Result<Placement, WordFault>
    ensures { result ≡ placement_named word.now }
{
    match word {
        "round" => Ok(Placement::Round),
        "block" => Ok(Placement::Block),
        _ => Err(WordFault::BadValue),
    }
}

/// The moves that a word names.
pub fn moves_named(word: &str) -> Result<Moves, WordFault>
    ensures { result ≡ moves_named word.now }
{
    match word {
        "load" => Ok(Moves::Load),
        "turn" => Ok(Moves::Turn),
        _ => Err(WordFault::BadValue),
    }
}
