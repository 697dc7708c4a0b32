//! Draws: a law's value from the words at a place.
ghost use Rattle.std.specs.Prelude.{◌≡◌, ◌+◌, ◌%◌, ◌^◌, ◌<◌, ◌≤◌, ◌-◌, IsTrue, length, min};
ghost use Rattle.random_streams.specs.Words.{words_from};
ghost use Rattle.random_streams.specs.Laws.{is_choice, is_drawable, draw, first_trial, greatest_value};
ghost use Rattle.random_streams.specs.declared.law.Law.TheVariants.{Choice};

use crate::law::Law;
use crate::stream::Stream;
use crate::weights::{Weights, chosen, total_weight};

/// The value of a law at a place of an object's words, and the place after the words that it reads.
pub fn draw(seed: u64, object: u32, place: u64, law: &Law) -> (u64, u64)
    requires { IsTrue (is_drawable law.now) }
    ensures within { result.0 ≤ greatest_value law.now }
    ensures bounded { result.0 ≤ 2 ^ 40 }
    ensures draw { result ≡ draw seed object place law.now }
{
    let mut words = Stream::new(seed, object, place);
    draw_by(&mut words, seed, object, place, law)
}

/// The same by a stream, which has the words at hand where it stands at this place, and is left at the place after them.
pub fn draw_by(words: &mut Stream, seed: u64, object: u32, place: u64, law: &Law) -> (u64, u64)
    requires { IsTrue (is_drawable law.now) }
    ensures within { result.0 ≤ greatest_value law.now }
    ensures bounded { result.0 ≤ 2 ^ 40 }
    ensures draw { result ≡ draw seed object place law.now }
{
    words.move_to(seed, object, place);
    let value = words.draw(law);
    (value, words.place())
}

/// A place of a list of weights, counted from 0, as a choice among them draws it, and the place after the word that it
/// reads. The stream plays the part that it has in `draw_by`.
pub fn choose_by(
    words: &mut Stream,
    seed: u64,
    object: u32,
    place: u64,
    weights: &Weights,
) -> (u64, u64)
    requires { IsTrue (is_choice weights.now) }
    ensures within { result.0 < length weights.now }
    ensures draw { result ≡ draw seed object place (Choice weights.now) }
{
    words.move_to(seed, object, place);
    let way = words.choose(weights);
    (way, words.place())
}

impl Stream {
    /// The value of a law at the place, which moves on by the words that the law reads.
    #[tactic(auto, unfolding(crate::specs::Laws::draw, crate::specs::Laws::drawn_value, crate::specs::Laws::words_read, crate::specs::Laws::is_drawable, crate::specs::Laws::is_choice, crate::specs::Laws::greatest_value))]
    pub fn draw(&mut self, law: &Law) -> u64
        requires { IsTrue (is_drawable law.now) }
        ensures within { result ≤ greatest_value law.now }
        ensures value { result ≡ (draw self.old.seed self.old.object self.old.place law.now).0 }
        ensures place { self.new ≡ record self.old {
          place = (draw self.old.seed self.old.object self.old.place law.now).1;
        } }
    {
        // A place is below 2^64.
        let _ = &self.place;
        match law {
            Law::Fixed { value } => *value,
            Law::Uniform { low, high } => *low + u64::from(self.word()) % (*high - *low + 1),
            Law::Geometric { p, cap } => u64::from(self.trials(*p, *cap)),
            Law::Choice { weights } => self.choose(weights),
        }
    }

    /// A place of a list of weights, in proportion to its weight. It reads one word.
    #[tactic(auto, unfolding(crate::specs::Laws::draw, crate::specs::Laws::drawn_value, crate::specs::Laws::words_read, crate::specs::Laws::is_choice))]
    fn choose(&mut self, weights: &Weights) -> u64
        requires { IsTrue (is_choice weights.now) }
        ensures within { result < length weights.now }
        ensures value { result ≡ (draw self.old.seed self.old.object self.old.place (Choice weights.now)).0 }
        ensures place { self.new ≡ record self.old {
          place = (draw self.old.seed self.old.object self.old.place (Choice weights.now)).1;
        } }
    {
        // A place is below 2^64.
        let _ = &self.place;
        let weights = weights.as_slice();
        let share = u64::from(self.word()) % total_weight(weights);
        chosen(weights, share) as u64
    }

    /// The first trial, counted from 1, whose word is below `p`, or `cap` where no trial before it has one.
    fn trials(&mut self, p: u32, cap: u32) -> u32
        requires { 1 ≤ cap }
        ensures trial { result ≡ first_trial p cap (words_from self.old.seed self.old.object self.old.place) }
        ensures place { self.new ≡ record self.old { place = (self.old.place + min result (cap - 1)) % 2 ^ 64 } }
    {
        // A place is below 2^64.
        let _ = &self.place;
        let tests = cap - 1;
        let mut read = 0;
        while read < tests {
            let (more, is_below) = self.read_until_below(p, tests - read);
            read += more;
            if is_below {
                return read;
            }
        }
        cap
    }
}
