// Runs the calls that read TLVs over cases whose answers paper 01 gives, and writes for each group how many cases it has and how
// many are wrong.
#![tactic(auto)]

mod kinds;
mod lists;
mod places;
mod reads;

use vectors::tally;

fn reading() {
    tally::run(
        b"length of the first entry, every value",
        65536,
        lists::entry_length,
    );
    tally::run(
        b"length of the second entry, every value",
        65536,
        lists::later_length,
    );
    tally::run(b"lists", 36, lists::list);
    tally::run(b"bytes left over", 36, lists::left_over);
    tally::run(b"lists for a writer", 16, lists::whole);
}

fn places_and_kinds() {
    tally::run(b"places in a list", 26, places::place);
    tally::run(b"places in damaged lists", 19, places::damaged);
    tally::run(b"from entry to entry", 4, places::walk);
    tally::run(b"kinds, every number", 65536, kinds::number);
    tally::run(b"kinds by name", 32, kinds::name);
}

fn main() {
    reading();
    places_and_kinds();
}
