// Runs the state decision over cases whose answers paper 01 gives, and writes how many cases there are and how many are wrong.
#![tactic(auto)]

mod decided;
mod ports;

use vectors::tally;

// The decisions for one port and then those for all eight: whether the case of a number is right.
fn right(n: u64) -> bool {
    if n < decided::CASES {
        decided::one(n)
    } else {
        ports::all(n - decided::CASES)
    }
}

fn main() {
    tally::run(b"states", decided::CASES + ports::CASES, right);
}
