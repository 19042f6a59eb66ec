// Scripts: rows that call, and rows that say what the book then holds.
use crate::rows;
use book_vectors::sent::Sent;
use book_vectors::starts::Setup;
use book_vectors::{calls, rules, sent, starts};
use foreign_master::Tallies;
use refused::Refusal;
use vectors::tally::Tally;
use words::word;

// F ports rule interval interval number: a fresh start, with the first interval for port 1 and the second for the others.
fn fresh(store: &mut [u64], before: &[u64], row: &[u8]) -> bool {
    let setup = Setup {
        ports: rows::hex(row, 1),
        rule: rows::letter(row, 2),
        place: 1,
        interval: rows::hex(row, 3),
        others: rows::hex(row, 4),
    };
    starts::right(store, before, setup, rows::answer(row, 5))
}

// G ports rule place interval number: a fresh start, with this interval for one port.
fn fresh_but_one(store: &mut [u64], before: &[u64], row: &[u8]) -> bool {
    let setup = Setup {
        ports: rows::hex(row, 1),
        rule: rows::letter(row, 2),
        place: rows::hex(row, 3),
        interval: rows::hex(row, 4),
        others: 100,
    };
    starts::right(store, before, setup, rows::answer(row, 5))
}

fn sending(row: &[u8]) -> Sent {
    Sent {
        port: rows::hex(row, 1),
        letter: rows::letter(row, 2),
        kind: rows::letter(row, 3),
        sequence: rows::hex(row, 4),
        steps: rows::hex(row, 5),
    }
}

// A call is refused so, and changes no word.
fn refused(answer: Result<Tallies, Refusal>, why: Refusal, store: &[u64], before: &[u64]) -> bool {
    answer.err() == Some(why) && store == before
}

// A message taken is the last of its sender, and changes no word of another port.
fn taken(
    answer: Result<Tallies, Refusal>,
    evicted: u64,
    s: Sent,
    store: &[u64],
    before: &[u64],
) -> bool {
    let at = words::port_at(s.port);
    calls::is(answer, Ok(()), evicted, 0)
        && words::same_but(store, before, at, at + 820)
        && calls::newest(store, s)
}

// R port sender frame sequence steps number evicted: a frame at a port.
fn registered(store: &mut [u64], before: &[u64], row: &[u8]) -> bool {
    let s = sending(row);
    let answer = calls::register(store, s);
    match rows::answer(row, 6) {
        Ok(()) => taken(answer, rows::decimal(row, 7), s, store, before),
        Err(why) => refused(answer, why, store, before),
    }
}

// A step number gone: a step of age, which changes no word of the head, of an interval or past the book.
fn aged(store: &mut [u64], before: &[u64], row: &[u8]) -> bool {
    let answer = foreign_master::step_age(store, rows::hex(row, 1));
    match rows::answer(row, 2) {
        Ok(()) => {
            calls::is(answer, Ok(()), 0, rows::decimal(row, 3))
                && words::same_but(store, before, 20, 6580)
                && intervals_stay(store, before)
        }
        Err(why) => refused(answer, why, store, before),
    }
}

fn intervals_stay(store: &[u64], before: &[u64]) -> bool {
    (1..=8)
        .map(words::port_at)
        .all(|at| word(store, at) == word(before, at))
}

// S port sender sequence count: so many messages, one after the other, all taken with none put out.
fn series(store: &mut [u64], row: &[u8]) -> bool {
    let port = rows::hex(row, 1);
    let letter = rows::letter(row, 2);
    let first = rows::hex(row, 3) % 65536;
    let count = rows::hex(row, 4) % 65536;
    for k in 0..count {
        let answer = calls::register(store, sent::good(port, letter, (first + k) % 65536, 0));
        if !calls::is(answer, Ok(()), 0, 0) {
            return false;
        }
    }
    true
}

// E port sender count: one message of each of so many senders, all taken.
fn several(store: &mut [u64], row: &[u8]) -> bool {
    let port = rows::hex(row, 1);
    let letter = rows::letter(row, 2) % 128;
    let count = rows::hex(row, 3) % 16;
    for k in 0..count {
        let answer = calls::register(store, sent::good(port, letter + k as u8, 0, 0));
        if !calls::is(answer, Ok(()), 0, 0) {
            return false;
        }
    }
    true
}

// Whether master i of a port is that of a letter, and holds as many messages as a digit says; of two or more it offers one, of one none.
fn holds_so_many(store: &[u64], port: u64, i: u64, letter: u8, digit: u8) -> bool {
    let messages = word(store, words::master_at(port, i) + 3);
    let offers = offers::is_qualified(messages);
    calls::is_sender(store, port, i, letter)
        && messages == digit as u64 % 16
        && offers == (b'1' < digit)
}

// H port sender-and-count ..: the masters of a port in their order, and how many messages each holds.
fn held(store: &[u64], row: &[u8]) -> bool {
    let port = rows::hex(row, 1);
    let count = word(store, words::port_at(port) + 1) % 100;
    if row.len() as u64 / 3 != count + 1 {
        return false;
    }
    for i in 0..count {
        let at = 4 + i as usize * 3;
        if !holds_so_many(store, port, i, rows::cell(row, at), rows::cell(row, at + 1)) {
            return false;
        }
    }
    true
}

// M port place place sequence age: a message, by the place of its master and its own.
fn message(store: &[u64], row: &[u8]) -> bool {
    let port = rows::hex(row, 1);
    let i = rows::hex(row, 2);
    let k = rows::hex(row, 3);
    words::sequence(store, port, i, k) == rows::hex(row, 4)
        && words::age(store, port, i, k) == rows::hex(row, 5)
}

fn right(store: &mut [u64], before: &[u64], row: &[u8]) -> bool {
    match rows::cell(row, 0) {
        b'F' => fresh(store, before, row),
        b'G' => fresh_but_one(store, before, row),
        b'R' => registered(store, before, row),
        b'A' => aged(store, before, row),
        b'S' => series(store, row),
        b'E' => several(store, row),
        b'H' => held(store, row),
        b'M' => message(store, row),
        _ => false,
    }
}

// Whether a row is right, and the book sound after it.
fn holds(store: &mut [u64], before: &mut [u64], row: &[u8]) -> bool {
    words::copy(store, before);
    right(store, before, row) && rules::sound(store)
}

// Runs the rows of a script, each ended by a semicolon.
fn all(table: &[u8], store: &mut [u64], before: &mut [u64]) -> Tally {
    let mut tally = Tally::default();
    words::lay(store);
    for row in table.split(|c| *c == b';').filter(|row| !row.is_empty()) {
        tally = tally.with(holds(store, before, row));
    }
    tally
}

// Runs a script on a store of its own, and writes its line.
pub fn run(name: &[u8], table: &[u8]) {
    let mut store = [0u64; words::STORE];
    let mut before = [0u64; words::STORE];
    all(table, &mut store, &mut before).report(name);
}
