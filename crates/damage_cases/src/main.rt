// Runs the calls on stores that are too short, and on full books of which one word is changed, and writes for each group how many cases it
// has and how many are wrong: 1 comes first, and 16 is right exactly where a book is unsound.
#![tactic(auto)]

mod decisions;
mod short;

use book_vectors::{calls, full, rules, sent};
use foreign_master::Tallies;
use refused::Refusal;
use vectors::tally;
use vectors::tally::Tally;
use words::word;

// How many ways a word is changed.
const CHANGES: usize = 11;

// Room for a ninth port, which no book has.
const STORE: usize = 7400;

// A word changed: none, all ones, by one, by one step or sequence where it holds these, in one bit, or to a clock of the list.
fn changed(x: u64, change: usize) -> u64 {
    match change {
        0 => 0,
        1 => 0xFFFF_FFFF_FFFF_FFFF,
        2 => x.wrapping_add(1),
        3 => x.wrapping_sub(1),
        4 => x.wrapping_add(0x0001_0000),
        5 => x.wrapping_add(0x0001_0000_0000),
        6 => x ^ 0x0000_0010,
        7 => x ^ 0x0002_0000_0000,
        8 => x ^ 0x1000_0000_0000_0000,
        9 => x ^ 0x8000_0000_0000_0000,
        _ => sent::clock(b'A'),
    }
}

// Whether an answer is right for a book that is sound or not: 16 and no word changed, or another answer.
fn right(answer: Result<Tallies, Refusal>, sound: bool, store: &[u64], before: &[u64]) -> bool {
    let refused = answer.err() == Some(Refusal::Unsound);
    if sound {
        !refused
    } else {
        refused && store == before
    }
}

// A decision, and the first candidate.
fn decided(store: &mut [u64], before: &[u64], sound: bool) -> bool {
    let offered = decisions::offered(store).err();
    let decided = decisions::decide(store).err();
    if sound {
        offered.is_none() && decided.is_none()
    } else {
        let unsound = Some(Refusal::Unsound);
        offered == unsound && decided == unsound && &*store == before
    }
}

// A good frame, a step of age, and these.
fn every_call(store: &mut [u64], before: &[u64], sound: bool) -> bool {
    let first = calls::register(store, sent::good(1, b'A', 5, 0));
    let registers = right(first, sound, store, before);
    words::copy(before, store);
    let second = foreign_master::step_age(store, 1);
    let ages = right(second, sound, store, before);
    words::copy(before, store);
    registers && ages && decided(store, before, sound)
}

// The tallies of the books that are still sound, and of those that are not.
#[derive(Clone, Copy, Default)]
struct Counts {
    sound: Tally,
    unsound: Tally,
}

impl Counts {
    // One case more.
    fn with(self, sound: bool, right: bool) -> Counts {
        let Counts {
            sound: kept,
            unsound: broken,
        } = self;
        if sound {
            Counts {
                sound: kept.with(right),
                unsound: broken,
            }
        } else {
            Counts {
                sound: kept,
                unsound: broken.with(right),
            }
        }
    }
}

// One change of one word; the book is whole again afterwards.
fn one(t: Counts, store: &mut [u64], book: &mut [u64], at: usize, change: usize) -> Counts {
    let was = word(book, at);
    words::put(book, at, changed(was, change));
    words::copy(book, store);
    let sound = rules::sound(book);
    let answered = every_call(store, book, sound);
    words::put(book, at, was);
    t.with(sound, answered)
}

// All changes of a word.
fn every(t: Counts, store: &mut [u64], book: &mut [u64], at: usize) -> Counts {
    let mut all = t;
    for change in 0..CHANGES {
        all = one(all, store, book, at, change);
    }
    all
}

fn all(store: &mut [u64], book: &mut [u64]) -> Counts {
    let mut all = Counts::default();
    full::fill(book);
    for at in 0..words::BOOK {
        all = every(all, store, book, at);
    }
    all
}

fn changed_words() {
    let mut store = [0u64; STORE];
    let mut book = [0u64; STORE];
    let t = all(&mut store, &mut book);
    t.unsound.report(b"one word changed, unsound");
    t.sound.report(b"one word changed, sound");
}

fn main() {
    tally::run(b"stores too short", short::CASES, short::one);
    changed_words();
}
