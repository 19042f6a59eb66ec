// The check that a store holds a sound book, and the layout of the store for those who stand on it.
#![tactic(auto)]

ghost use Rattle.std.specs.Prelude.{◌≡◌, ◌<◌, ◌≤◌, ◌^◌, length, get_or};
ghost use Rattle.history.specs.Rules.{masters_max, messages_max};
ghost use Rattle.history.specs.Sound.{holdable, follows};
ghost use Rattle.store.specs.Below.{all};
ghost use Rattle.store.specs.Layout.{master_words, port_words, store_words, identity_of, message_at, reads, WholeHead};
ghost use Rattle.refused.specs.Refusal.{number_in};
ghost use Rattle.book.specs.Rules.{rule_at, master_sound, placed, port_sound, sound_words, store_refusal};

use refused::Refusal;
pub use store::{
    HEAD_WORDS, LISTED, MASTER_WORDS, MESSAGES, PORT_WORDS, PORTS, STORE_WORDS, acceptable, age_at,
    find_master, sequence_at, slot_at, steps_at,
};

// Message k may be held.
fn message_holdable(master: &[u64], k: usize, limit: u64) -> bool
    requires { length master.now ≡ master_words }
    ensures { result ≡ holdable reads (identity_of master.now) limit (message_at master.now k) }
{
    steps_at(master, k) < 255 && age_at(master, k) < limit
}

// Message k may follow message j.
fn message_follows(master: &[u64], j: usize, k: usize) -> bool
    requires { length master.now ≡ master_words }
    ensures { result ≡ follows reads (message_at master.now j) (message_at master.now k) }
{
    age_at(master, k) <= age_at(master, j)
        && history::in_step(sequence_at(master, j), sequence_at(master, k))
}

fn message_sound(master: &[u64], k: usize, limit: u64) -> bool
    requires { length master.now ≡ master_words }
    ensures { result ≡ rule_at limit master.now k }
{
    message_holdable(master, k, limit) && (k == 0 || message_follows(master, k - 1, k))
}

fn messages_sound(master: &[u64], limit: u64) -> bool
    requires { (length master.now ≡ master_words) × (get_or master.now 3 0 ≤ messages_max) }
    ensures { result ≡ all (get_or master.now 3 0) (rule_at limit master.now) }
{
    let count = master[3] as usize;
    for k in 0..count {
        if !message_sound(master, k, limit) {
            return false;
        }
    }
    true
}

fn master_sound(head: &[u64], master: &[u64], limit: u64) -> bool
    requires { WholeHead head.now × (length master.now ≡ master_words) }
    ensures { result ≡ master_sound head.now limit master.now }
{
    let count = master[3];
    let clock = master[0];
    if count < 1 || 8 < count || clock == head[1] || !acceptable(head, clock) {
        return false;
    }
    messages_sound(master, limit)
}

// Master i of a port is the first of its identity, and sound.
fn master_placed(head: &[u64], port: &[u64], i: usize) -> bool
    requires head_len { WholeHead head.now × (length port.now ≡ port_words) }
    requires port_bound { (get_or port.now 1 0 ≤ masters_max) × (get_or port.now 0 0 < 2 ^ 60) × (i < masters_max) }
    ensures { result ≡ placed head.now port.now i }
{
    let limit = 4 * port[0];
    let at = 4 + i * MASTER_WORDS;
    let master = &port[at..at + MASTER_WORDS];
    let clock = master[0];
    let number = master[1] % 65536;
    find_master(port, clock, number) == i && master_sound(head, master, limit)
}

fn port_sound(head: &[u64], port: &[u64]) -> bool
    requires { WholeHead head.now × (length port.now ≡ port_words) }
    ensures { result ≡ port_sound head.now port.now }
{
    let interval = port[0];
    let count = port[1] as usize;
    if interval < 1 || 0x1000_0000_0000_0000 <= interval || history::MASTERS < count {
        return false;
    }
    for i in 0..count {
        if !master_placed(head, port, i) {
            return false;
        }
    }
    true
}

// The store holds a sound book.
fn sound(store: &[u64]) -> bool
    requires { store_words ≤ length store.now }
    ensures { result ≡ sound_words store.now }
{
    let count = store[0] as usize;
    if count < 1 || PORTS < count || 16 < store[3] {
        return false;
    }
    let head = &store[0..HEAD_WORDS];
    for q in 0..count {
        let at = HEAD_WORDS + q * PORT_WORDS;
        if !port_sound(head, &store[at..at + PORT_WORDS]) {
            return false;
        }
    }
    true
}

// What every call over a store checks first: that it is long enough, and that its book is sound.
pub fn check(store: &[u64]) -> Result<(), Refusal>
    ensures { number_in result ≡ store_refusal store.now }
{
    if store.len() < STORE_WORDS {
        return Err(Refusal::Short);
    }
    if !sound(store) {
        return Err(Refusal::Unsound);
    }
    Ok(())
}
