// The candidates of a book, one at a time and by value, so that a caller can lay them into a list of its own for the single choice.
// The call asks nothing of what it is lent and changes no word.
#![tactic(auto)]

ghost use Rattle.std.specs.Prelude.{◌≡◌, true, ◌<◌, ◌≤◌, length, get_or, slice_get};
ghost use Rattle.choice.specs.Candidate.{candidate_of};
ghost use Rattle.history.specs.Rules.{masters_max};
ghost use Rattle.book.specs.Layout.{port_words, store_words};
ghost use Rattle.book.specs.Rules.{sound_words};
ghost use Rattle.offers.specs.Offers.{best_at, offering};
ghost use Rattle.candidates.specs.Candidates.{place_of, laid, candidate_answer};

use choice::Candidate;
use header::PortIdentity;
use refused::Refusal;

// How many masters of a port offer a message.
fn count_offers(port: &[u64]) -> usize
    requires { (length port.now ≡ port_words) × (get_or port.now 1 0 ≤ masters_max) }
    ensures { result ≡ length (offering port.now) }
{
    let count = port[1] as usize;
    let mut n = 0;
    for i in 0..count {
        if offers::offers(port, i) {
            n += 1;
        }
    }
    n
}

// The place of the k-th master of a port that offers a message, k from 0, the last master first.
fn place_of(port: &[u64], k: usize) -> usize
    requires { (length port.now ≡ port_words) × (get_or port.now 1 0 ≤ masters_max) × (k < length (offering port.now)) }
    ensures { result ≡ place_of port.now k }
{
    let count = port[1] as usize;
    let mut left = k;
    for i in (0..count).rev() {
        if offers::offers(port, i) {
            if left == 0 {
                return i;
            }
            left -= 1;
        }
    }
    unreachable!()
}

// The k-th candidate of a port, as its receiver offers it, with the place that is given.
fn candidate_at(port: &[u64], receiver: PortIdentity, k: usize, place: u64) -> Candidate
    requires { (length port.now ≡ port_words) × (get_or port.now 1 0 ≤ masters_max) × (k < length (offering port.now)) }
    ensures { result ≡ candidate_of (best_at receiver port.now (place_of port.now k)) place }
{
    offers::best_at(port, place_of(port, k), receiver).candidate(place)
}

// The k-th candidate of a sound book, if it has more than k.
fn candidate_in(store: &[u64], k: u64) -> Option<Candidate>
    requires { (store_words ≤ length store.now) × (sound_words store.now ≡ true) }
    ensures { result ≡ slice_get (laid store.now) k }
{
    let count = store[0] as usize;
    let mut left = k as usize;
    for q in 0..count {
        let at = book::HEAD_WORDS + q * book::PORT_WORDS;
        let port = &store[at..at + book::PORT_WORDS];
        let here = count_offers(port);
        if left < here {
            let receiver = PortIdentity {
                clock_identity: store[1],
                port_number: q as u16 + 1,
            };
            return Some(candidate_at(port, receiver, left, k));
        }
        left -= here;
    }
    None
}

// The k-th candidate of the book, k from 0: port 1 first, within a port from the last master to the first, each master with two
// messages or more its newest. Its place is k. None where the book has no more than k; the store is checked first.
pub fn candidate(store: &[u64], k: u64) -> Result<Option<Candidate>, Refusal>
    ensures { result ≡ candidate_answer store.now k }
{
    book::check(store)?;
    Ok(candidate_in(store, k))
}
