// Ageing of a book: every message older, the stale ones let go and counted, empty masters squeezed out.
#![tactic(auto)]

ghost use Rattle.std.specs.Prelude.{◌≡◌, ◌+◌, ◌*◌, ◌^◌, ◌<◌, ◌≤◌, length, slice_index};
ghost use Rattle.wire.specs.Be.{put};
ghost use Rattle.slot.specs.Blocks.{block};
ghost use Rattle.history.specs.Rules.{masters_max, messages_max};
ghost use Rattle.book.specs.Layout.{master_words, port_words, master_at};
ghost use Rattle.book.specs.Rules.{SoundStore};
ghost use Rattle.ageing.specs.Age.{older_at, older_to, stale, gone, aged_master, RingsFit, gone_to, aged_to, pack_step, packed, gone_port, aged_port, aged_out, aged_store};

// Message k older by `step`.
fn age_message(master: &mut [u64], k: usize, step: u64)
    requires { length master.old ≡ master_words }
    ensures { master.new ≡ older_at step k master.old }
{
    let at = book::slot_at(master[2], k);
    let age = std::num::wrapping_add_u64(master[at + 2], step);
    master[at + 2] = age;
}

// Every message of a master.
fn age_messages(master: &mut [u64], step: u64)
    requires { length master.old ≡ master_words }
    ensures { master.new ≡ older_to step (slice_index master.old 3) master.old }
{
    let count = master[3] as usize;
    for k in 0..count {
        age_message(master, k, step);
    }
}

// How many messages stand before the first that is young enough.
fn count_stale(master: &[u64], limit: u64) -> usize
    requires { length master.now ≡ master_words }
    ensures { result ≡ stale limit master.now }
{
    let count = master[3] as usize;
    for k in 0..count {
        if book::age_at(master, k) < limit {
            return k;
        }
    }
    count
}

// A master aged. This and every function below that ages answers how many messages were let go.
fn age_master(master: &mut [u64], step: u64, limit: u64) -> u64
    requires { (length master.old ≡ master_words) × (slice_index master.old 3 ≤ messages_max) }
    ensures { (result ≡ gone step limit master.old) × (master.new ≡ aged_master step limit master.old) × (result ≤ 8) }
{
    age_messages(master, step);
    let dropped = count_stale(master, limit) as u64;
    let start = master[2] % 8;
    let count = master[3];
    master[2] = (start + dropped) % 8;
    master[3] = count - dropped;
    dropped
}

// The masters of a port.
fn age_masters(port: &mut [u64], step: u64, limit: u64) -> u64
    requires { (length port.old ≡ port_words) × (slice_index port.old 1 ≤ masters_max) × RingsFit port.old }
    ensures { (result ≡ gone_to step limit (slice_index port.old 1) port.old) × (port.new ≡ aged_to step limit (slice_index port.old 1) port.old) × (result ≤ 8 * 12) }
{
    let count = port[1] as usize;
    let mut out = 0;
    for i in 0..count {
        let at = 4 + i * book::MASTER_WORDS;
        out += age_master(&mut port[at..at + book::MASTER_WORDS], step, limit);
    }
    out
}

// A later master's words to an earlier master's place.
fn move_master(port: &mut [u64], to: usize, from: usize)
    requires { (length port.old ≡ port_words) × (from < masters_max) × (to < from) }
    ensures { port.new ≡ put port.old (master_at to) (block port.old (master_at from) master_words) }
{
    let target = 4 + to * book::MASTER_WORDS;
    let source = 4 + from * book::MASTER_WORDS;
    port.copy_within(source..source + book::MASTER_WORDS, target);
}

// Master i to the place `next`, if it has messages; and the next place.
fn pack_one(port: &mut [u64], i: usize, next: usize) -> usize
    requires { (length port.old ≡ port_words) × (i < masters_max) × (next ≤ i) }
    ensures result_after { record { words = port.new; next = result } ≡ pack_step i (record { words = port.old; next = next }) }
    ensures upper_bound { result ≤ i + 1 }
{
    if port[4 + i * book::MASTER_WORDS + 3] < 1 {
        return next;
    }
    if next < i {
        move_master(port, next, i);
    }
    next + 1
}

// The masters that have messages to the front.
fn pack_masters(port: &mut [u64])
    requires { (length port.old ≡ port_words) × (slice_index port.old 1 ≤ masters_max) }
    ensures { port.new ≡ packed port.old }
{
    let count = port[1] as usize;
    let mut next = 0;
    for i in 0..count {
        next = pack_one(port, i, next);
    }
    port[1] = next as u64;
}

// A port aged.
fn age_port(port: &mut [u64], step: u64) -> u64
    requires { (length port.old ≡ port_words) × (slice_index port.old 1 ≤ masters_max) × (slice_index port.old 0 < 2 ^ 60) × RingsFit port.old }
    ensures { (result ≡ gone_port step port.old) × (port.new ≡ aged_port step port.old) × (result ≤ 8 * 12) }
{
    let limit = 4 * port[0];
    let out = age_masters(port, step, limit);
    pack_masters(port);
    out
}

// Every message of every port older by `step`.
pub fn age_ports(store: &mut [u64], step: u64) -> u64
    requires { SoundStore store.old }
    ensures value { (result ≡ aged_out step store.old) × (store.new ≡ aged_store step store.old) }
    ensures upper_bound { result ≤ 8 * (8 * 12) }
{
    let count = store[0] as usize;
    let mut all = 0;
    for q in 0..count {
        let at = book::HEAD_WORDS + q * book::PORT_WORDS;
        all += age_port(&mut store[at..at + book::PORT_WORDS], step);
    }
    all
}
