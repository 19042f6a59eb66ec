// The words of a store, and where a book keeps its parts.
#![tactic(auto)]

ghost use Rattle.std.specs.Prelude.{◌+◌, ◌≤◌};

// A store for the cases: a book, and words past it.
pub const BOOK: usize = 6580;

pub const STORE: usize = 6600;

pub fn word(s: &[u64], i: usize) -> u64 {
    s.get(i).copied().unwrap_or(0)
}

pub fn put(s: &mut [u64], i: usize, value: u64) {
    if let Some(x) = s.get_mut(i) {
        *x = value;
    }
}

// What lies in a store before anything is written.
pub fn laid(i: usize) -> u64 {
    (i % 65536) as u64 * 0x0001_0203_0405 + 7
}

// Fills a store: at each place what is told of it.
pub fn fill_by<F: Fn(usize) -> u64>(s: &mut [u64], word: F)
    requires { F.IsAlwaysCallable word }
{
    for (i, x) in s.iter_mut().enumerate() {
        *x = word(i);
    }
}

// Fills a store with what lies in it before anything is written.
pub fn lay(s: &mut [u64]) {
    fill_by(s, laid);
}

// Copies a store into one of the same size; into another, nothing.
pub fn copy(from: &[u64], to: &mut [u64]) {
    if from.len() == to.len() {
        to.copy_from_slice(from);
    }
}

// Whether two stores are the same, but for the words from one place up to another.
pub fn same_but(a: &[u64], b: &[u64], from: usize, to: usize) -> bool {
    a.iter()
        .enumerate()
        .all(|(i, x)| *x == word(b, i) || (from..to).contains(&i))
}

// Where a port begins, which counts from 1: interval, count of masters.
pub fn port_at(port: u64) -> usize
    ensures { result + 820 ≤ 6580 }
{
    20 + ((port % 8 + 7) % 8) as usize * 820
}

// Where master i of a port begins: clock, port number, first slot, count of messages.
pub fn master_at(port: u64, i: u64) -> usize
    ensures { result + 68 ≤ 6580 }
{
    port_at(port) + 4 + (i % 12) as usize * 68
}

// Where message k of a master begins.
pub fn message_at(s: &[u64], port: u64, i: u64, k: u64) -> usize
    ensures { result + 8 ≤ 6580 }
{
    let at = master_at(port, i);
    let first = word(s, at + 2) % 8;
    at + 4 + ((first + k % 8) % 8) as usize * 8
}

pub fn age(s: &[u64], port: u64, i: u64, k: u64) -> u64 {
    word(s, message_at(s, port, i, k) + 2)
}

pub fn sequence(s: &[u64], port: u64, i: u64, k: u64) -> u64
    ensures { result ≤ 65535 }
{
    word(s, message_at(s, port, i, k) + 4) / 0x1_0000_0000 % 65536
}

pub fn steps(s: &[u64], port: u64, i: u64, k: u64) -> u64 {
    word(s, message_at(s, port, i, k) + 4) / 65536 % 65536
}
