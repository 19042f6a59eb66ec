// A candidate as words at fixed places, and the choice over a list of such.
#![tactic(auto)]

ghost use Rattle.std.specs.Prelude.{◌≡◌, ◌+◌, ◌*◌, ◌≤◌, length};
ghost use Rattle.wire.specs.Be.{put};
ghost use Rattle.refused.specs.Refusal.{number_in};
ghost use Rattle.choice.specs.Candidate.{winner, itself};
ghost use Rattle.candidate_words.specs.Words.{candidate_size, candidate_words, candidate_refusal, candidate_in, candidates_in, fits_all, candidates_of, list_refusal};

use choice::Candidate;
use refused::Refusal;

// How many words a candidate takes.
pub const CANDIDATE_WORDS: usize = 12;

// The most that each field holds.
const LIMITS: [u64; CANDIDATE_WORDS] = [
    0xFF,
    0xFF,
    0xFF,
    0xFFFF,
    0xFF,
    0xFFFF_FFFF_FFFF_FFFF,
    0xFFFF,
    0xFFFF_FFFF_FFFF_FFFF,
    0xFFFF_FFFF_FFFF_FFFF,
    0xFFFF,
    0xFFFF_FFFF_FFFF_FFFF,
    0xFFFF_FFFF_FFFF_FFFF,
];

// Writes the words of a candidate from at on. Every other word stays.
pub fn put_candidate(c: Candidate, s: &mut [u64], at: usize)
    requires { at + candidate_size ≤ length s.old }
    ensures { s.new ≡ put s.old at (candidate_words c) }
{
    let values = [
        c.gm_priority_1 as u64,
        c.clock_class as u64,
        c.clock_accuracy as u64,
        c.offset_scaled_log_variance as u64,
        c.gm_priority_2 as u64,
        c.gm_identity,
        c.steps_removed as u64,
        c.sender,
        c.receiver_clock,
        c.receiver_port as u64,
        c.age,
        c.place,
    ];
    lent::put_words(s, at, &values);
}

// Whether the words are a candidate: Short where they are too few, then Unfit where a word is more than its field holds.
pub fn refusal(s: &[u64]) -> Result<(), Refusal>
    ensures { number_in result ≡ candidate_refusal s.now }
{
    lent::check(s, &LIMITS)
}

// The candidate that the words hold; of a word that does not fit its field the lowest bits count.
pub fn candidate_of(s: &[u64]) -> Candidate
    requires { candidate_size ≤ length s.now }
    ensures { result ≡ candidate_in s.now }
{
    Candidate {
        gm_priority_1: (s[0] % 256) as u8,
        clock_class: (s[1] % 256) as u8,
        clock_accuracy: (s[2] % 256) as u8,
        gm_priority_2: (s[4] % 256) as u8,
        offset_scaled_log_variance: (s[3] % 65536) as u16,
        steps_removed: (s[6] % 65536) as u16,
        receiver_port: (s[9] % 65536) as u16,
        gm_identity: s[5],
        sender: s[7],
        receiver_clock: s[8],
        age: s[10],
        place: s[11],
    }
}

// Whether the words of n candidates are at most what their fields hold.
fn all_fit(s: &[u64], n: usize) -> bool
    requires { n * candidate_size ≤ length s.now }
    ensures { result ≡ fits_all n s.now }
{
    for i in 0..n {
        let at = i * CANDIDATE_WORDS;
        if !lent::within(&s[at..at + CANDIDATE_WORDS], &LIMITS) {
            return false;
        }
    }
    true
}

// Whether the words are a list of candidates: Short where they are no whole ones, then Unfit where a word is more than its field holds.
pub fn list_refusal(s: &[u64]) -> Result<(), Refusal>
    ensures { number_in result ≡ list_refusal s.now }
{
    if s.len() % CANDIDATE_WORDS != 0 {
        return Err(Refusal::Short);
    }
    if !all_fit(s, s.len() / CANDIDATE_WORDS) {
        return Err(Refusal::Unfit);
    }
    Ok(())
}

// The choice over n candidates, left to right.
fn best_of(s: &[u64], n: usize) -> Option<Candidate>
    requires { n * candidate_size ≤ length s.now }
    ensures { result ≡ winner itself (candidates_in n s.now) }
{
    let mut held = None;
    for i in 0..n {
        let at = i * CANDIDATE_WORDS;
        held = choice::keep(held, candidate_of(&s[at..at + CANDIDATE_WORDS]));
    }
    held
}

// The choice over the candidates that the words hold, left to right, as find_best::find_best makes it; none where there are none.
pub fn find_best(s: &[u64]) -> Option<Candidate>
    ensures { result ≡ winner itself (candidates_of s.now) }
{
    best_of(s, s.len() / CANDIDATE_WORDS)
}
