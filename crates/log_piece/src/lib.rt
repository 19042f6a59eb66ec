// The log program's input as it arrives, in pieces: the next line that ends in a piece, cut and answered. The calls ask that the store is
// sound once something is set up, and leave it so, so that no line has to check it.
#![tactic(auto)]

ghost use Rattle.std.specs.Prelude.{◌≡◌, ◌≤◌, length, take};
ghost use Rattle.lines.specs.Lines.{next_line, kept_of, last_of};
ghost use Rattle.log_answer.specs.Answer.{Known};
ghost use Rattle.log_asked.specs.Line.{line_answered, line_store, line_out};
ghost use Rattle.log_step.specs.Piece.{step_of, step_store, step_out, StepWithin, rest_of, rest_store, rest_out, RestWithin};

use lines::{Cut, Last};
use log_answer::{Answered, Setup};
use log_step::Step;

// Answers the line of n bytes at the start of the buffer.
fn kept_line(store: &mut [u64], setup: Setup, buffer: &[u8], n: usize, out: &mut [u8]) -> Answered
    requires { (n ≤ length buffer.now) × Known 0 setup store.old }
    ensures { (result ≡ line_answered setup (take n buffer.now) store.old out.old) × (store.new ≡ line_store setup (take n buffer.now) store.old out.old) × (out.new ≡ line_out setup (take n buffer.now) store.old out.old) }
{
    log_line::line_checked(store, Ok(()), setup, &buffer[..n], out)
}

// Takes bytes of a piece from a place on, up to the end of a line, and answers the line: at the start of out stands the line of the
// answer. The buffer keeps the unfinished line, whose first `count` bytes stand there.
pub fn next_answer(
    store: &mut [u64],
    setup: Setup,
    buffer: &mut [u8],
    count: usize,
    piece: &[u8],
    at: usize,
    out: &mut [u8],
) -> Step
    requires { Known 0 setup store.old }
    ensures value { result ≡ step_of (next_line buffer.old count piece.now at) setup store.old out.old }
    ensures store_after { store.new ≡ step_store (next_line buffer.old count piece.now at) setup store.old out.old }
    ensures out_after { out.new ≡ step_out (next_line buffer.old count piece.now at) setup store.old out.old }
    ensures buffer_after { buffer.new ≡ kept_of (next_line buffer.old count piece.now at) }
    ensures within { StepWithin (length out.old) (length piece.now) at result }
{
    match lines::next_line(buffer, count, piece, at) {
        Cut::Line { count: n, next } => Step::Line {
            answered: kept_line(store, setup, buffer, n, out),
            next,
        },
        Cut::TooLong { next } => Step::Line {
            answered: log_line::too_long(setup, out),
            next,
        },
        Cut::Taken { count: kept } => Step::Taken { count: kept },
    }
}

// Answers the line that the end of the input ends, if it has begun.
pub fn last_answer(
    store: &mut [u64],
    setup: Setup,
    buffer: &[u8],
    count: usize,
    out: &mut [u8],
) -> Option<Answered>
    requires { Known 0 setup store.old }
    ensures value { result ≡ rest_of (last_of (length buffer.now) count) buffer.now setup store.old out.old }
    ensures store_after { store.new ≡ rest_store (last_of (length buffer.now) count) buffer.now setup store.old out.old }
    ensures out_after { out.new ≡ rest_out (last_of (length buffer.now) count) buffer.now setup store.old out.old }
    ensures within { RestWithin (length out.old) result }
{
    match lines::last_line(buffer, count) {
        Last::Line { count: n } => Some(kept_line(store, setup, buffer, n, out)),
        Last::TooLong => Some(log_line::too_long(setup, out)),
        Last::Nothing => None,
    }
}
