// Whether a book is sound, rule by rule as paper 01 lists them.
use words::word;

// Any sender, or those of the list.
fn acceptable(s: &[u64], clock: u64) -> bool {
    let count = word(s, 3);
    word(s, 2) == 0 || (0..16).any(|j| j < count && word(s, 4 + j as usize) == clock)
}

// Whether master i has another identity than those before it.
fn distinct(s: &[u64], port: u64, i: u64) -> bool {
    let here = words::master_at(port, i);
    (0..i).all(|j| {
        let there = words::master_at(port, j);
        word(s, here) != word(s, there) || word(s, here + 1) % 65536 != word(s, there + 1) % 65536
    })
}

// Steps below 255, an age below four intervals.
fn holdable(s: &[u64], port: u64, i: u64, k: u64) -> bool {
    let interval = word(s, words::port_at(port));
    words::age(s, port, i, k) / 4 < interval && words::steps(s, port, i, k) < 255
}

// Ages never rise, and each sequence minus the one before is below 32767.
fn follows(s: &[u64], port: u64, i: u64, k: u64) -> bool {
    if k == 0 {
        return true;
    }
    let difference = words::sequence(s, port, i, k) + 65536 - words::sequence(s, port, i, k - 1);
    let older = words::age(s, port, i, k - 1);
    words::age(s, port, i, k) <= older && difference % 65536 < 32767
}

fn messages(s: &[u64], port: u64, i: u64, count: u64) -> bool {
    (0..count).all(|k| holdable(s, port, i, k) && follows(s, port, i, k))
}

fn master(s: &[u64], port: u64, i: u64) -> bool {
    let at = words::master_at(port, i);
    let clock = word(s, at);
    let count = word(s, at + 3);
    (1..=8).contains(&count)
        && clock != word(s, 1)
        && acceptable(s, clock)
        && distinct(s, port, i)
        && messages(s, port, i, count)
}

fn port(s: &[u64], port: u64) -> bool {
    let at = words::port_at(port);
    let interval = word(s, at);
    let masters = word(s, at + 1);
    (1..=0x0FFF_FFFF_FFFF_FFFF).contains(&interval)
        && masters <= 8
        && (0..masters).all(|i| master(s, port, i))
}

pub fn sound(s: &[u64]) -> bool {
    let ports = word(s, 0);
    (1..=8).contains(&ports) && word(s, 3) <= 16 && (1..=ports).all(|q| port(s, q))
}
