// Answering each line of standard input: what programs that answer recorded lines run.
#![tactic(auto)]

use input::Place;
use replay::Next;
use std::io::Stdin;

// The most bytes of a line.
const MAX_BYTES: usize = 2048;

// Ends an answer. A line that does not have the right shape, for which nothing is written, is a bad line.
fn print_end(right: bool) {
    if right {
        replay::print_end();
    } else {
        replay::print_bad();
    }
}

// Answers each line by its bytes: whether it has the right shape. A proved loop has to end, and nothing says that the input does: the turns
// are counted up to a number that no run reaches.
fn run_with<F: FnMut(&[u8]) -> bool>(
    stdin: Stdin,
    block: &mut [u8],
    line: &mut [u8],
    bytes: &mut [u8],
    mut answer: F,
)
    requires { F.IsAlwaysCallable answer }
{
    let mut place = Place::start();
    for _ in 0..u64::MAX {
        match replay::next_bytes(stdin, place, block, line, bytes) {
            Next::Bytes { count, place: next } => {
                print_end(answer(&bytes[..count]));
                place = next;
            }
            Next::Bad { place: next } => {
                replay::print_bad();
                place = next;
            }
            Next::End => return,
        }
    }
}

// The same, with room for a block of the input, a line and its bytes.
pub fn run<F: FnMut(&[u8]) -> bool>(stdin: Stdin, answer: F)
    requires { F.IsAlwaysCallable answer }
{
    let mut block = io::large_buffer();
    let mut line = io::buffer();
    let mut bytes = [0u8; MAX_BYTES];
    run_with(stdin, &mut block, &mut line, &mut bytes, answer);
}
