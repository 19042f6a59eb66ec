// A full book: eight ports, eight masters each with eight messages, a list of sixteen, much of it at a limit.
ghost use Rattle.std.specs.Prelude.{◌≤◌};

use crate::sent;

const MAX_INTERVAL: u64 = 0x0FFF_FFFF_FFFF_FFFF;

// Port 8 has the longest interval.
fn interval(q: usize) -> u64
    ensures { (16 ≤ result) × (result ≤ 0x0FFFFFFFFFFFFFFF) }
{
    if q == 7 {
        MAX_INTERVAL
    } else {
        16 + q as u64 % 8
    }
}

// Two masters of a port have the same clock each, and the ports together all clocks of the list.
fn clock(q: usize, i: usize) -> u64 {
    sent::clock(b'A' + ((i / 2 + q % 8 * 2) % 16) as u8)
}

// Ages by the master: as old as can be, falling from there, or none.
fn age(q: usize, i: usize, k: usize) -> u64 {
    let oldest = interval(q) * 4 - 1;
    match i % 3 {
        0 => oldest,
        1 => oldest - k as u64 % 8,
        _ => 0,
    }
}

// Sequences by the master: one after the other over the wrap, as far apart as can be, or all the same.
fn sequence(i: usize, k: usize) -> u64 {
    match i % 4 {
        0 => (65533 + k as u64 % 8) % 65536,
        1 => k as u64 % 8 * 32766 % 65536,
        2 => 7,
        _ => k as u64 % 8,
    }
}

fn steps(i: usize, k: usize) -> u64 {
    if i % 2 == 0 { 254 } else { k as u64 % 8 }
}

// The first slot of a master's messages.
fn start(q: usize, i: usize) -> usize {
    (q % 8 + i % 8) % 8
}

// Word w of a slot.
fn slot_word(q: usize, i: usize, slot: usize, w: usize) -> u64 {
    let k = (slot % 8 + 8 - start(q, i) % 8) % 8;
    match w {
        2 => age(q, i, k),
        4 => (sequence(i, k) % 65536 * 65536 + steps(i, k) % 65536) * 65536 + 37,
        _ => words::laid(slot % 8 * 8 + w % 8),
    }
}

// Word w of a master.
fn master_word(q: usize, i: usize, w: usize) -> u64 {
    match w {
        0 => clock(q, i),
        1 => i as u64 % 2 + 1,
        2 => start(q, i) as u64,
        3 => 8,
        _ => slot_word(q, i, (w - 4) / 8, (w - 4) % 8),
    }
}

// Word w of a port: beside its masters there is room for four.
fn port_word(q: usize, w: usize) -> u64 {
    match w {
        0 => interval(q),
        1 => 8,
        4..=547 => master_word(q, (w - 4) / 68, (w - 4) % 68),
        _ => words::laid(w),
    }
}

fn head_word(w: usize) -> u64 {
    match w {
        0 => 8,
        1 => sent::OWN,
        2 => 1,
        3 => 16,
        _ => sent::clock(b'A' + ((w - 4) % 16) as u8),
    }
}

fn book_word(w: usize) -> u64 {
    if w < 20 {
        head_word(w)
    } else {
        port_word((w - 20) / 820, (w - 20) % 820)
    }
}

pub fn fill(s: &mut [u64]) {
    words::fill_by(s, book_word);
}
