// The calls under test on a store, and their answers.
ghost use Rattle.std.specs.Prelude.{◌+◌, ◌≤◌};

use crate::sent;
use crate::sent::Sent;
use foreign_master::Tallies;
use header::PortIdentity;
use refused::Refusal;
use slot::ForeignAnnounceMessage;
use vectors::framing;
use words::word;

// Whether an answer is as wanted: refused so, or done with these tallies, none of them of messages consumed.
pub fn is(
    answer: Result<Tallies, Refusal>,
    want: Result<(), Refusal>,
    evicted: u64,
    aged_out: u64,
) -> bool {
    match answer {
        Ok(t) => {
            want.is_ok() && t.evicted == evicted && t.aged_out == aged_out && t.consumed == 0
        }
        Err(why) => want == Err(why),
    }
}

// Registers the frame of a sender.
pub fn register(store: &mut [u64], sent: Sent) -> Result<Tallies, Refusal> {
    let f = sent::frame(sent);
    let bytes = framing::first(&f, sent::size(sent.kind));
    foreign_master::register_announce_message(store, (sent.port % 65536) as u16, bytes)
}

// Whether a master has the identity of a letter.
pub fn is_sender(s: &[u64], port: u64, i: u64, letter: u8) -> bool {
    let at = words::master_at(port, i);
    word(s, at) == sent::clock(letter) && word(s, at + 1) == sent::number(letter)
}

// The place of a sender among the first eight masters of a port.
fn place(s: &[u64], port: u64, letter: u8) -> Option<u64> {
    let count = word(s, words::port_at(port) + 1);
    (0..count.min(8)).find(|i| is_sender(s, port, *i, letter))
}

// Whether a message is that of a frame, with age 0.
fn is_read(held: ForeignAnnounceMessage, frame: &[u8]) -> bool {
    held.age == 0
        && held.receipt == 0
        && frame::read_frame(frame).is_ok_and(|m| held.message == m.announce)
}

// Whether the words from a place on hold the message of a sender's frame.
fn holds(s: &[u64], at: usize, letter: u8, frame: &[u8]) -> bool
    requires { at + 8 ≤ 6580 }
{
    let source = PortIdentity {
        clock_identity: sent::clock(letter),
        port_number: (sent::number(letter) % 65536) as u16,
    };
    if s.len() < words::BOOK {
        return false;
    }
    is_read(slot::load_message(&s[at..at + 8], source), frame)
}

// Whether the last message of a sender is that of its frame, with age 0.
pub fn newest(s: &[u64], sent: Sent) -> bool {
    let Some(i) = place(s, sent.port, sent.letter) else {
        return false;
    };
    let count = word(s, words::master_at(sent.port, i) + 3);
    if count == 0 {
        return false;
    }
    let at = words::message_at(s, sent.port, i, count - 1);
    holds(s, at, sent.letter, &sent::frame(sent))
}
