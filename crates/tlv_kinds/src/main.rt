// Writes what each number of a TLV type is, a line for each run of numbers that are treated alike: the lines of the oracle's subcommand
// kinds.
#![tactic(auto)]

use replay::{STDOUT_FILENO, print_flag, print8, print16};
use tlv_type::TlvType;

// What is told of a number: the code of its name, whether it is passed on, and whether its kind has the same number.
#[derive(Clone, Copy, PartialEq, Eq)]
struct Kind {
    code: Option<u8>,
    passed_on: bool,
    keeps: bool,
}

fn kind_of(number: u16) -> Kind {
    let kind = TlvType::from(number);
    Kind {
        code: kind_code::name_code(kind),
        passed_on: kind.announce_propagate(),
        keeps: u16::from(kind) == number,
    }
}

// Writes a run of numbers of one kind. A kind without a name has the code 0.
fn print_run(first: u16, last: u16, kind: Kind) {
    io::print_hex(STDOUT_FILENO, u64::from(first), 4);
    print16(last);
    print8(kind.code.unwrap_or(0));
    print_flag(kind.passed_on);
    print_flag(kind.keeps);
    replay::print_end();
}

fn main() {
    let mut first = 0;
    let mut kind = kind_of(0);
    for number in 1..=u16::MAX {
        let next = kind_of(number);
        if next != kind {
            print_run(first, number - 1, kind);
            first = number;
            kind = next;
        }
    }
    print_run(first, u16::MAX, kind);
}
