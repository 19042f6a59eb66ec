// Runs the writer of frames and the builder of TLVs over cases whose answers paper 01 gives, and writes for each group how many
// cases it has and how many are wrong.
#![tactic(auto)]

mod builder;
mod large;
mod writing;

use vectors::tally;

fn frames_written() {
    tally::run(b"what will not fit, at four rooms", 100, writing::unfit);
    tally::run(b"the nearest that fits", 14, writing::fit);
    tally::run(b"rooms of 0 to 96", 194, writing::room);
    tally::run(b"an empty last entry", 6, writing::empty_last);
}

fn whole_messages() {
    tally::run(b"written, then read", 12, writing::written_read);
    tally::run(b"longest messages", 12, large::written);
    tally::run(b"longest lists of empty entries", 4, large::empty);
}

fn entries_built() {
    tally::run(b"an entry in rooms of 0 to 32", 99, builder::entry);
    tally::run(b"an entry of every type", 65536, builder::entry_type);
    tally::run(b"used bytes of 0 to 40", 82, builder::used);
    tally::run(b"refusals of the builder", 16, builder::refusal);
    tally::run(b"longest values", 13, builder::long_value);
    tally::run(b"two entries after each other", 6, builder::two);
}

fn main() {
    frames_written();
    whole_messages();
    entries_built();
}
