// The log program: lines of hexadecimal digits on standard input, the line of each answer on standard output. No contract can say what
// the system gives or takes, so the contracts here say bounds only, and that the store is sound once something is set up; how the input
// is cut and answered is said by the crate log_piece.
#![tactic(auto)]

ghost use Rattle.std.specs.Prelude.{◌-◌, ◌≤◌, length, IfSome};
ghost use Rattle.log_answer.specs.Answer.{Known};
ghost use Rattle.log_step.specs.Piece.{StepWithin, StepKnown};

use book::STORE_WORDS;
use log_answer::Setup;
use log_step::Step;
use std::io::Stdin;

// Standard output, as the calls that write name it.
const STDOUT_FILENO: i32 = 1;

// Standard error.
const STDERR_FILENO: i32 = 2;

// Where the program stands: what is set up, how many bytes of the unfinished line are kept, and how many of the output wait to be
// written.
#[derive(Clone, Copy)]
struct Place {
    setup: Setup,
    count: usize,
    used: usize,
}

// Writes what waits.
fn flush(out: &[u8], used: usize) -> bool
    requires { used ≤ length out.now }
{
    io::write_all(STDOUT_FILENO, &out[..used])
}

// How many bytes wait once an answer fits after them: what waits is written where it might not; none where that write fails.
fn make_room(out: &[u8], used: usize) -> Option<usize>
    requires { used ≤ length out.now }
    ensures { IfSome result (λ n. n ≤ length out.now) }
{
    if out.len() - used >= log_answer::ANSWER_BYTES {
        return Some(used);
    }
    if !flush(out, used) {
        return None;
    }
    Some(0)
}

// Answers the next line of a piece after what waits in the output.
fn answer_after(
    store: &mut [u64],
    setup: Setup,
    line: &mut [u8],
    count: usize,
    piece: &[u8],
    at: usize,
    out: &mut [u8],
    used: usize,
) -> Step
    requires { (used ≤ length out.old) × Known 0 setup store.old }
    ensures step_within { StepWithin (length out.old - used) (length piece.now) at result }
    ensures step_known { StepKnown setup result store.new }
{
    log_piece::next_answer(store, setup, line, count, piece, at, &mut out[used..])
}

// Answers the lines that end among the first n bytes of a block; none where a write fails.
fn answer_block(
    store: &mut [u64],
    block: &[u8],
    n: usize,
    place: Place,
    line: &mut [u8],
    out: &mut [u8],
) -> Option<Place>
    requires { (n ≤ length block.now) × (place.used ≤ length out.old) × Known 0 place.setup store.old }
    ensures { IfSome result (λ p. (p.used ≤ length out.old) × Known 0 p.setup store.new) }
{
    let piece = &block[..n];
    let mut setup = place.setup;
    let mut count = place.count;
    let mut used = place.used;
    let mut at = 0;
    loop {
        let from = make_room(out, used)?;
        match answer_after(store, setup, line, count, piece, at, out, from) {
            Step::Line { answered, next } => {
                setup = answered.setup;
                used = from + answered.count;
                count = 0;
                at = next;
            }
            Step::Taken { count: kept } => {
                return Some(Place {
                    setup,
                    count: kept,
                    used: from,
                });
            }
        }
    }
}

// Answers the line that the end of the input ends, and writes what waits.
fn finish(store: &mut [u64], place: Place, line: &[u8], out: &mut [u8]) -> bool
    requires { (place.used ≤ length out.old) × Known 0 place.setup store.old }
{
    let setup = place.setup;
    let used = place.used;
    let count = place.count;
    if !flush(out, used) {
        return false;
    }
    match log_piece::last_answer(store, setup, line, count, out) {
        Some(answered) => flush(out, answered.count),
        None => true,
    }
}

// Answers the input. A proved loop has to end, and nothing says that the input does: the turns are counted, to a number that no run uses
// up. A write that fails ends it.
fn run(stdin: Stdin, store: &mut [u64], block: &mut [u8], line: &mut [u8], out: &mut [u8]) -> bool {
    let mut setup = Setup::none();
    let mut count = 0;
    let mut used = 0;
    for _ in 0..u64::MAX {
        let n = input::read_block(stdin, block);
        let place = Place { setup, count, used };
        if n == 0 {
            return finish(store, place, line, out);
        }
        match answer_block(store, block, n, place, line, out) {
            Some(next) => {
                setup = next.setup;
                count = next.count;
                used = next.used;
            }
            None => return false,
        }
    }
    false
}

fn main(rt: HostRuntime) {
    let mut store = [0u64; STORE_WORDS];
    let mut block = io::large_buffer();
    let mut out = io::large_buffer();
    let mut line = io::buffer();
    if !run(rt.stdin(), &mut store, &mut block, &mut line, &mut out) {
        io::write_all(STDERR_FILENO, b"rillarch_log: writing failed\n");
    }
}
