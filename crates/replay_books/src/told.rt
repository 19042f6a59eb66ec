// The words of an answer: a book, port by port, each master with its messages.
ghost use Rattle.std.specs.Prelude.{◌≡◌, ◌≤◌, length};

use announce::AnnounceMessage;
use book::{HEAD_WORDS, MASTER_WORDS, PORT_WORDS};
use header::PortIdentity;
use replay::STDOUT_FILENO;
use replay_states::print_on;
use slot::SLOT_WORDS;

// Writes what the line of an answer has no room for, and is always none.
pub fn print_others(one: u64, other: u64) {
    if one != 0 {
        replay::print(one, 1);
    }
    if other != 0 {
        replay::print(other, 1);
    }
}

// A count, or the most that there is room for.
pub fn within(count: u64, most: u64) -> usize
    ensures { result ≤ most }
{
    count.min(most) as usize
}

// A byte more in the hash FNV-1a of 32 bits.
fn hashed(hash: u32, byte: u8) -> u32 {
    (hash ^ u32::from(byte)).wrapping_mul(0x0100_0193)
}

// The hash of bytes.
fn hash(s: &[u8]) -> u32 {
    s.iter().fold(0x811C_9DC5, |sum, byte| hashed(sum, *byte))
}

// Writes the content of a message: its bytes, or their hash.
pub fn print_content(message: AnnounceMessage, full: bool) {
    let bytes = replay_states::frame_of(message);
    if full {
        for byte in &bytes {
            print_on(u64::from(*byte), 2);
        }
    } else {
        print_on(u64::from(hash(&bytes)), 8);
    }
}

// Writes the sequence, the age and the content of message k of a master.
fn print_message(master: &[u64], k: usize, full: bool)
    requires { length master.now ≡ 68 }
{
    let source = PortIdentity {
        clock_identity: master[0],
        port_number: (master[1] % 65536) as u16,
    };
    let at = book::slot_at(master[2], k);
    let held = slot::load_message(&master[at..at + SLOT_WORDS], source);
    replay::print16(held.message.header.sequence_id);
    io::write_all(STDOUT_FILENO, b":");
    print_on(held.age, 1);
    io::write_all(STDOUT_FILENO, b":");
    print_content(held.message, full);
}

// Writes the identity of a master and its messages.
fn print_master(master: &[u64], full: bool)
    requires { length master.now ≡ 68 }
{
    replay::print(master[0], 16);
    io::write_all(STDOUT_FILENO, b".");
    print_on(master[1], 4);
    for k in 0..within(master[3], 8) {
        print_message(master, k, full);
    }
}

// Writes the masters of a port.
fn print_port(port: &[u64], full: bool)
    requires { length port.now ≡ 820 }
{
    for i in 0..within(port[1], 12) {
        let at = 4 + i * MASTER_WORDS;
        print_master(&port[at..at + MASTER_WORDS], full);
    }
}

// Writes what opens a port, with a space before it but where it opens the answer.
fn print_bar(opens: bool) {
    if opens {
        io::write_all(STDOUT_FILENO, b"|");
    } else {
        io::write_all(STDOUT_FILENO, b" |");
    }
}

// Writes all that the ports hold: each message by its hash, or in full, where the book is the whole answer.
pub fn print_book(store: &[u64], full: bool)
    requires { 6580 ≤ length store.now }
{
    for q in 0..within(store[0], 8) {
        let at = HEAD_WORDS + q * PORT_WORDS;
        print_bar(full && q == 0);
        print_port(&store[at..at + PORT_WORDS], full);
    }
}
