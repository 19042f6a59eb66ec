// The choice at once over all candidates of a book, and the words of the answer that tell it.
use choice::Candidate;
use replay_states::{no_candidate, print_none};

// The most candidates that the choice takes by value.
const MAX_CANDIDATES: usize = 96;

// How many candidates there are, and the one chosen.
#[derive(Clone, Copy)]
pub struct AtOnce {
    count: usize,
    best: Option<Candidate>,
}

// The choice over the first n of a list.
fn chosen(list: [Candidate; 96], n: usize) -> AtOnce {
    AtOnce {
        count: n,
        best: find_best::best_of(list, n),
    }
}

// The choice over all candidates of a book, asked for one after the other until there is no more. None is there where the book is refused,
// which the decision tells.
pub fn choose(store: &[u64]) -> AtOnce {
    let mut list = [no_candidate(); MAX_CANDIDATES];
    for k in 0..MAX_CANDIDATES {
        match candidates::candidate(store, k as u64) {
            Ok(Some(candidate)) => list[k] = candidate,
            _ => return chosen(list, k),
        }
    }
    chosen(list, MAX_CANDIDATES)
}

// Writes how many candidates there are, and the place of the one chosen.
pub fn print_choice(choice: AtOnce) {
    replay::print(choice.count as u64, 1);
    match choice.best {
        Some(candidate) => replay::print(candidate.place, 1),
        None => print_none(),
    }
}
