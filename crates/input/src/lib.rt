// A program's standard input, a line at a time. No contract can say what the system gives, so the contracts here say only bounds; what is
// cut out of a block once it is read is said by the crate lines.
#![tactic(auto)]

ghost use Rattle.std.specs.Prelude.{◌≤◌, length};
ghost use Rattle.lines.specs.Lines.{CutWithin};
ghost use Rattle.input.specs.Within.{NextWithin};

use std::io::{Read, Stdin};

// Where a program stands in its input: the block holds `size` bytes, the first `at` of them are taken, and `count` bytes of an unfinished
// line are kept.
#[derive(Clone, Copy)]
pub struct Place {
    pub count: usize,
    pub at: usize,
    pub size: usize,
}

// What the input holds next: a line, whose bytes are the first `count` of the line buffer; a line longer than that buffer; or its end.
#[derive(Clone, Copy)]
pub enum Next {
    Line { count: usize, place: Place },
    TooLong { place: Place },
    End,
}

impl Place {
    // Nothing is read yet.
    pub fn start() -> Place {
        Place {
            count: 0,
            at: 0,
            size: 0,
        }
    }
}

// Reads a block: how many bytes came, 0 at the end of the input and where the read fails.
pub fn read_block(mut stdin: Stdin, block: &mut [u8]) -> usize
    ensures { result ≤ length block.old }
{
    stdin.read(block).unwrap_or(0)
}

// Takes bytes of the block from a place on, up to the end of a line or of what the block holds.
fn cut(line: &mut [u8], count: usize, block: &[u8], size: usize, at: usize) -> lines::Cut
    requires { size ≤ length block.now }
    ensures { CutWithin (length line.old) size at result }
{
    lines::next_line(line, count, &block[..size], at)
}

// The end of the input ends a line of which `count` bytes are kept, if it has begun.
fn last(line: &[u8], count: usize) -> Next
    ensures { NextWithin (length line.now) result }
{
    match lines::last_line(line, count) {
        lines::Last::Line { count: n } => Next::Line {
            count: n,
            place: Place::start(),
        },
        lines::Last::TooLong => Next::TooLong {
            place: Place::start(),
        },
        lines::Last::Nothing => Next::End,
    }
}

// Reads blocks until a line is complete. A proved loop has to end, and nothing says that a line does: the turns are counted, to a
// number that no run uses up.
fn read_line(stdin: Stdin, place: Place, block: &mut [u8], line: &mut [u8]) -> Next
    requires { place.size ≤ length block.old }
    ensures { NextWithin (length line.old) result }
{
    let mut count = place.count;
    let mut at = place.at;
    let mut size = place.size;
    for _ in 0..u64::MAX {
        match cut(line, count, block, size, at) {
            lines::Cut::Line { count: n, next } => {
                return Next::Line {
                    count: n,
                    place: Place {
                        count: 0,
                        at: next,
                        size,
                    },
                };
            }
            lines::Cut::TooLong { next } => {
                return Next::TooLong {
                    place: Place {
                        count: 0,
                        at: next,
                        size,
                    },
                };
            }
            lines::Cut::Taken { count: kept } => {
                count = kept;
            }
        }
        size = read_block(stdin, block);
        if size == 0 {
            return last(line, count);
        }
        at = 0;
    }
    Next::End
}

// Reads the next line of standard input. A line ends at LF or at the end of the input, and a final LF opens no line; a read that fails
// counts as the end. A place whose size is above the block's length counts as one at which the block is full.
pub fn next_line(stdin: Stdin, place: Place, block: &mut [u8], line: &mut [u8]) -> Next
    ensures within { NextWithin (length line.old) result }
{
    let size = place.size.min(block.len());
    read_line(stdin, Place { size, ..place }, block, line)
}
