//! Reading from the front of a text.
ghost use Rattle.std.specs.Prelude.{◌+◌, ◌<◌, ◌^◌, length};

use crate::digits::{decimal_value, digit_count};
use crate::refusal::{StateCause, StateRefusal};

/// A place in a text: what is left of it, and in which line. Each read moves it past what was read. A text is refused
/// with the first read that is, so after a refusal the place means nothing.
#[derive(Drop)]
pub(crate) struct Cursor<'a> {
    /// What is left.
    pub bytes: &'a [u8],
    /// The line in which it begins, counted from 1.
    pub line: u64,
    ghost few: { line + length bytes.now < 2 ^ 32 },
}

impl<'a> Cursor<'a> {
    ghost use Rattle.std.specs.Prelude.{◌≡◌, ◌≤◌, IfOk};
    ghost use Rattle.run_save.specs.declared.refusal.StateCause.TheVariants.{BadLine};
    ghost use Rattle.run_save.specs.declared.refusal.StateRefusal.TheVariants.{At};
    ghost use Rattle.run_save.specs.Causes.{cause_code};
    ghost use Rattle.run_save.specs.Checks.{Gives};
    ghost use Rattle.run_save.specs.Rests.{after, next_line, number, field, small_field, any_field};
    ghost use Rattle.run_save.specs.Views.{rest_of};

    /// At the first line of a text.
    pub fn new(bytes: &'a [u8]) -> Cursor<'a>
        requires { length bytes.now < 2 ^ 31 }
        ensures { rest_of result ≡ record { bytes = bytes.now; line = 1 } }
    {
        Cursor { bytes, line: 1 }
    }

    /// The refusal of what is left.
    fn bad_line(&self) -> StateRefusal
        ensures { result ≡ At (cause_code BadLine) self.now.line }
    {
        StateCause::BadLine.at(self.line)
    }

    /// Goes past a word.
    #[tactic(auto, using(crate::proofs::RestLemmas::stripped_is_starts_with), unfolding(crate::specs::Rests::after))]
    pub fn skip(&mut self, word: &[u8]) -> Result<(), StateRefusal>
        ensures read { Gives (λ _. rest_of self.new) result (after word.now (rest_of self.old)) }
        ensures shorter { IfOk result (λ _. length self.new.bytes.now + length word.now ≡ length self.old.bytes.now) }
    {
        let Some(rest) = self.bytes.strip_prefix(word) else {
            return Err(self.bad_line());
        };
        self.bytes = rest;
        Ok(())
    }

    /// Goes past the end of the line.
    #[tactic(auto, unfolding(crate::specs::Rests::after, crate::specs::Rests::next_line))]
    pub fn next_line(&mut self) -> Result<(), StateRefusal>
        ensures { Gives (λ _. rest_of self.new) result (next_line (rest_of self.old)) }
    {
        self.skip(b"\n")?;
        self.line += 1;
        Ok(())
    }

    /// A number from 0 to the greatest.
    #[tactic(auto, unfolding(crate::specs::Rests::number))]
    pub fn number(&mut self, most: u64) -> Result<u64, StateRefusal>
        ensures read { Gives (λ x. (x, rest_of self.new)) result (number most (rest_of self.old)) }
        ensures within { IfOk result (λ x. x ≤ most) }
        ensures shorter { IfOk result (λ _. length self.new.bytes.now ≤ length self.old.bytes.now) }
    {
        let (digits, rest) = self.bytes.split_at(digit_count(self.bytes));
        match decimal_value(digits) {
            Some(value) if value <= most => {
                self.bytes = rest;
                Ok(value)
            }
            _ => Err(self.bad_line()),
        }
    }

    /// A space and a number from 0 to the greatest.
    #[tactic(auto, unfolding(crate::specs::Rests::field))]
    pub fn field(&mut self, most: u64) -> Result<u64, StateRefusal>
        ensures read { Gives (λ x. (x, rest_of self.new)) result (field most (rest_of self.old)) }
        ensures within { IfOk result (λ x. x ≤ most) }
        ensures shorter { IfOk result (λ _. length self.new.bytes.now < length self.old.bytes.now) }
    {
        self.skip(b" ")?;
        self.number(most)
    }

    /// A space and a number of 32 bits.
    pub fn small_field(&mut self) -> Result<u32, StateRefusal>
        ensures { Gives (λ x. (x, rest_of self.new)) result (small_field (rest_of self.old)) }
    {
        let number = self.field(u64::from(u32::MAX))?;
        Ok(number as u32)
    }

    /// A space and a number of 64 bits.
    pub fn any_field(&mut self) -> Result<u64, StateRefusal>
        ensures read { Gives (λ x. (x, rest_of self.new)) result (any_field (rest_of self.old)) }
        ensures shorter { IfOk result (λ _. length self.new.bytes.now < length self.old.bytes.now) }
    {
        self.field(u64::MAX)
    }
}
