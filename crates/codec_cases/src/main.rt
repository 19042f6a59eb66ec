// Runs the calls of header and announce over cases whose answers paper 01 gives, and writes for each group how many cases it
// has and how many are wrong.
#![tactic(auto)]

mod lengths;
mod reading;
mod types;
mod whole;
mod writing;

use vectors::tally;

fn fields() {
    tally::run(b"F(n), every n", 65536, reading::sequence);
    tally::run(b"each flag by itself", 12, reading::flag);
    tally::run(b"flag bits that have no name", 32, reading::nameless_flag);
    tally::run(b"bytes 16 to 19, every value", 1024, reading::zero_byte);
    tally::run(b"control, every value", 256, reading::control_byte);
    tally::run(b"signed fields", 11, reading::signed);
}

fn frames_and_types() {
    tally::run(b"whole frames", 5, whole::frame);
    tally::run(b"lengths 0 to 70", 71, lengths::length);
    tally::run(b"length field, every value", 65536, types::length_field);
    tally::run(b"types of a frame", 16, types::nibble);
    tally::run(b"types of a byte", 256, types::byte);
    tally::run(b"versions, every value", 256, reading::version);
}

fn values_and_limits() {
    tally::run(b"sdo, every value", 4096, reading::sdo);
    tally::run(b"accuracy, every value", 256, reading::accuracy);
    tally::run(b"time source, every value", 256, reading::time_source);
    tally::run(b"header at its limits", 19, writing::header_limit);
    tally::run(b"content at its limits", 8, writing::content_limit);
    tally::run(b"bytes that are left, every value", 256, writing::left);
}

fn main() {
    fields();
    frames_and_types();
    values_and_limits();
}
