// Runs the reader of frames, and the writer on what was read, over cases whose answers paper 01 gives, and writes for each group
// how many cases it has and how many are wrong.
#![tactic(auto)]

mod again;
mod large;
mod lengths;
mod order;
mod real;

use vectors::tally;

fn lengths_and_types() {
    tally::run(b"lengths 0 to 70", 71, lengths::given);
    tally::run(b"lengths 0 to 70 of a frame of 70", 71, lengths::given_tlv);
    tally::run(b"length field, every value", 65536, lengths::length_field);
    tally::run(
        b"length field over an odd TLV, every value",
        65536,
        lengths::odd_length_field,
    );
    tally::run(b"types at six length fields", 192, order::typed);
    tally::run(b"the order of the checks", 30, order::order);
}

fn whole_frames() {
    tally::run(b"longest messages", 16, large::read);
    tally::run(b"10,912 entries", 10, large::many);
    tally::run(b"real announce frames", 5, real::frame);
    tally::run(b"real announce frames, cut", 380, real::damaged);
    tally::run(b"bits that are ignored", 256, again::ignored);
    tally::run(b"read, and written again twice", 6, again::again);
}

fn main() {
    lengths_and_types();
    whole_frames();
}
