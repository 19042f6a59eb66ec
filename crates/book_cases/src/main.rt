// Runs the calls that change a book over cases whose answers paper 01 gives, and writes for each group how many cases it has and how many
// are wrong.
#![tactic(auto)]

mod rows;
mod script;
mod sequences;
mod tables;

use vectors::tally;

fn main() {
    tables::fresh_starts();
    tables::registrations();
    tally::run(b"sequences", sequences::SEQUENCES, sequences::sequence);
    tally::run(b"steps", sequences::STEPS, sequences::steps);
    tables::lists();
    tables::ages();
}
