// Words at fixed places of a lent slice: a run of them written, and a run of them held against limits.
#![tactic(auto)]

ghost use Rattle.std.specs.Prelude.{◌≡◌, ◌+◌, ◌≤◌, length};
ghost use Rattle.wire.specs.Be.{put};
ghost use Rattle.refused.specs.Refusal.{number_in};
ghost use Rattle.lent.specs.Words.{all_within, refusal};

use refused::Refusal;

// Writes a run of words from at on. Every other word stays.
pub fn put_words(s: &mut [u64], at: usize, values: &[u64])
    requires { at + length values.now ≤ length s.old }
    ensures { s.new ≡ put s.old at values.now }
{
    s[at..at + values.len()].copy_from_slice(values);
}

// Whether each word is at most its limit.
pub fn within(words: &[u64], limits: &[u64]) -> bool
    requires { length limits.now ≤ length words.now }
    ensures { result ≡ all_within words.now limits.now }
{
    limits.iter().zip(words).all(|(limit, word)| word <= limit)
}

// Whether the words are taken: Short where they are fewer than the limits, then Unfit where a word is above its limit.
pub fn check(words: &[u64], limits: &[u64]) -> Result<(), Refusal>
    ensures { number_in result ≡ refusal words.now limits.now }
{
    if words.len() < limits.len() {
        return Err(Refusal::Short);
    }
    if !within(&words[..limits.len()], limits) {
        return Err(Refusal::Unfit);
    }
    Ok(())
}
