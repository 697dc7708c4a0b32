//! Numbers in decimal.
ghost use Rattle.std.specs.Prelude.{◌≡◌, ◌+◌, ◌<◌, ◌≤◌, length, decimal, IfOk};
ghost use Rattle.model_core.specs.DigitTables.{HoldsDigits, HoldsThree, AreTables, three_digits};
ghost use Rattle.model_core.specs.Writing.{WritesAt};

use crate::writing::write_first;
use delta_exchange::OutOfMemory;
use itoa::write_digits;
use std::alloc::Global;

/// How many digits a number has at most.
const MOST_DIGITS: usize = 20;

/// The digits of the numbers below 1,000, made once: a number below a million is written by two of them, with no loop.
#[derive(Drop)]
pub struct Digits {
    // from the first digit on, and in the last byte how many there are
    short: Vec<[u8; 4]>,
    // all three, with zeros before them
    three: Vec<[u8; 4]>,
    ghost made: { AreTables short.items three.items },
}

/// The digits of a number from the first on, and how many there are.
fn short_chunk(number: u64) -> [u8; 4]
    requires { number < 1000 }
    ensures { HoldsDigits number result }
{
    let mut digits = [0; 8];
    let start = write_digits(number, &mut digits, 4);
    let mut chunk = [0; 4];
    chunk.copy_from_slice(&digits[start..start + 4]);
    chunk[3] = (4 - start) as u8;
    chunk
}

/// The last three digits of a number below 1,000.
fn three_chunk(number: u64) -> [u8; 4]
    requires { number < 1000 }
    ensures { HoldsThree number result }
{
    let hundreds = b'0' + (number / 100) as u8;
    let tens = b'0' + (number / 10 % 10) as u8;
    let ones = b'0' + (number % 10) as u8;
    [hundreds, tens, ones, 0]
}

/// Writes a number of many digits.
#[inline(never)]
fn write_long(number: u64, into: &mut [u8], at: usize) -> usize
    requires { at + MOST_DIGITS ≤ length into.old }
    ensures { WritesAt into.old into.new at result (decimal number) }
{
    let mut digits = [0; 2 * MOST_DIGITS];
    let start = write_digits(number, &mut digits, MOST_DIGITS);
    write_first(
        MOST_DIGITS - start,
        &digits[start..start + MOST_DIGITS],
        into,
        at,
    )
}

impl Digits {
    /// The tables.
    pub fn new(alloc: Global) -> Result<Digits, OutOfMemory> {
        let mut short = Vec::with_capacity(alloc, 1000)?;
        let mut three = Vec::with_capacity(alloc, 1000)?;
        for number in 0..1000 {
            short.push_reserved(short_chunk(number));
            three.push_reserved(three_chunk(number));
        }
        Ok(Digits { short, three })
    }

    /// Writes a number in decimal at a place, and answers the place behind it.
    #[inline(always)]
    pub fn write(&self, number: u64, into: &mut [u8], at: usize) -> usize
        requires { at + MOST_DIGITS ≤ length into.old }
        ensures text { WritesAt into.old into.new at result (decimal number) }
        ensures few { result ≤ at + MOST_DIGITS }
    {
        if number < 1000 {
            return self.write_short(number, into, at);
        }
        if number < 1_000_000 {
            let middle = self.write_short(number / 1000, into, at);
            return self.write_three(number % 1000, into, middle);
        }
        write_long(number, into, at)
    }

    /// Writes a number below 1,000.
    #[inline(always)]
    fn write_short(&self, number: u64, into: &mut [u8], at: usize) -> usize
        requires few { number < 1000 }
        requires room { at + 4 ≤ length into.old }
        ensures text { WritesAt into.old into.new at result (decimal number) }
        ensures short { result ≤ at + 3 }
    {
        let chunk = self.short[number as usize];
        write_first(usize::from(chunk[3]), &chunk, into, at)
    }

    /// Writes a number below 1,000 with zeros before it.
    #[inline(always)]
    fn write_three(&self, number: u64, into: &mut [u8], at: usize) -> usize
        requires few { number < 1000 }
        requires room { at + 4 ≤ length into.old }
        ensures { WritesAt into.old into.new at result (three_digits number) }
    {
        write_first(3, &self.three[number as usize], into, at)
    }
}
