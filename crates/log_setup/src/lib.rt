// A line `00` of the log: a fresh start, and what is set up.
#![tactic(auto)]

ghost use Rattle.std.specs.Prelude.{◌≡◌, ◌+◌, ◌*◌, ◌≤◌, length, take, get_or};
ghost use Rattle.stored.specs.Calls.{exit_of, number_of};
ghost use Rattle.refused.specs.Refusal.{number_in};
ghost use Rattle.log_answer.specs.Answer.{answer_bytes, Answers};
ghost use Rattle.log_setup.specs.Start.{setup_at, intervals_at, start_at, start_asked};

use announce::ClockQuality;
use log_answer::{Answered, SHAPELESS, Setup};
use refused::Refusal;

// What a setup line says of us.
fn setup_at(line: &[u8]) -> Setup
    requires { 16 ≤ length line.now }
    ensures { result ≡ setup_at line.now }
{
    let quality = ClockQuality {
        clock_class: line[11],
        clock_accuracy: line[12],
        offset_scaled_log_variance: wire::u16_at(line, 13),
    };
    Setup {
        ports: line[1],
        priority_1: line[10],
        quality,
        priority_2: line[15],
    }
}

// The count of ports of a setup line.
fn count_at(line: &[u8]) -> usize
    requires { 2 ≤ length line.now }
    ensures { (result ≡ get_or line.now 1 0) × (result ≤ 255) }
{
    usize::from(line[1])
}

// The intervals of a setup line.
fn read_intervals(line: &[u8], count: usize, intervals: &mut [u64])
    requires { (16 + count * 8 ≤ length line.now) × (count ≤ length intervals.old) }
    ensures { take count intervals.new ≡ intervals_at line.now count }
{
    for i in 0..count {
        intervals[i] = wire::u64_at(line, 16 + i * 8);
    }
}

// The fresh start that a setup line asks, with room for its intervals; nobody is listed, any master is accepted.
fn start_with(
    store: &mut [u64],
    line: &[u8],
    intervals: &mut [u64],
    nobody: &[u64],
) -> Result<(), Refusal>
    requires { (16 ≤ length line.now) × (length line.now ≡ 16 + get_or line.now 1 0 * 8) × (length intervals.old ≡ 255) × (length nobody.now ≡ 0) }
    ensures { (number_in result ≡ number_of (start_at line.now) store.old) × (store.new ≡ exit_of (start_at line.now) store.old) }
{
    let count = count_at(line);
    read_intervals(line, count, intervals);
    let own = wire::u64_at(line, 2);
    foreign_master::fresh_start(store, own, true, nobody, &intervals[..count])
}

// The same; a byte counts at most 255 ports.
fn start(store: &mut [u64], line: &[u8]) -> Result<(), Refusal>
    requires { (16 ≤ length line.now) × (length line.now ≡ 16 + get_or line.now 1 0 * 8) }
    ensures { (number_in result ≡ number_of (start_at line.now) store.old) × (store.new ≡ exit_of (start_at line.now) store.old) }
{
    let mut intervals: [u64; 255] = [0; 255];
    let nobody: [u64; 0] = [0; 0];
    start_with(store, line, &mut intervals, &nobody)
}

// A line `00`: a fresh start, which if refused keeps what is set up and the book.
pub fn start_line(store: &mut [u64], setup: Setup, line: &[u8], out: &mut [u8]) -> Answered
    requires { answer_bytes ≤ length out.old }
    ensures { Answers (start_asked line.now) setup store.old out.old result store.new out.new }
{
    if line.len() < 16 || line.len() != 16 + count_at(line) * 8 {
        return log_answer::told(setup, SHAPELESS, out);
    }
    match start(store, line) {
        Ok(()) => log_answer::told(setup_at(line), 0, out),
        Err(e) => log_answer::told(setup, e.number(), out),
    }
}
