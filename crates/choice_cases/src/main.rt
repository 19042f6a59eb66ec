// Runs the comparison and the choice over cases whose answers paper 01 gives, and writes for each group how
// many cases it has and how many are wrong.
#![tactic(auto)]

mod circle;
mod fields;
mod lengths;
mod sides;
mod steps;
mod ties;

use vectors::tally;

// The cases of `every field` and then those of `steps`, with their sides swapped.
fn mirrored(n: u64) -> bool {
    if n < fields::CASES {
        return fields::swapped(n);
    }
    steps::swapped(n - fields::CASES)
}

fn comparison() {
    tally::run(b"verdicts", 6, sides::told);
    tally::run(b"every field", fields::CASES, fields::direct);
    tally::run(b"all pairs of accuracies", 65536, fields::accuracies);
    tally::run(b"steps", steps::CASES, steps::direct);
    tally::run(b"mirrored", fields::CASES + steps::CASES, mirrored);
}

fn choice() {
    tally::run(b"a, b, c", 26, circle::one);
    tally::run(b"ties", 90, ties::one);
    tally::run(b"lengths", 35, lengths::one);
}

fn main() {
    comparison();
    choice();
}
