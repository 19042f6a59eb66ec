// The store that all ports share: its layout, three fields of a message, and the searches for a clock and a master.
#![tactic(auto)]

ghost use Rattle.std.specs.Prelude.{◌≡◌, ◌<◌, ◌≤◌, ◌+◌, length};
ghost use Rattle.history.specs.Port.{sequence, steps};
ghost use Rattle.store.specs.Layout.{master_words, identity, slot_at, message_at, reads, WholeHead, WholePort};
ghost use Rattle.store.specs.Search.{named, place, accepts_head};

// How many ports and masters there is room for; history::MASTERS is how many masters a port may hold.
pub const PORTS: usize = 8;

pub const MASTERS_ROOM: usize = 12;

// How many messages a master holds.
pub const MESSAGES: usize = 8;

// How many clocks the list of acceptable masters holds.
pub const LISTED: usize = 16;

// A master: clock, port number, first slot, count of messages, slots.
pub const MASTER_WORDS: usize = 4 + MESSAGES * slot::SLOT_WORDS;

// A port: interval, count of masters, last receipt, a spare word, masters.
pub const PORT_WORDS: usize = 4 + MASTERS_ROOM * MASTER_WORDS;

// The head: count of ports, own clock, 0 where any master is accepted, length of the list, list.
pub const HEAD_WORDS: usize = 4 + LISTED;

pub const STORE_WORDS: usize = HEAD_WORDS + PORTS * PORT_WORDS;

// Where message k of a ring starts.
pub fn slot_at(start: u64, k: usize) -> usize
    ensures { (result ≡ slot_at start k) × (result + 8 ≤ master_words) }
{
    4 + ((start % 8) as usize + k % 8) % 8 * 8
}

// Three fields of message k of a master.

pub fn age_at(master: &[u64], k: usize) -> u64
    requires { length master.now ≡ master_words }
    ensures { result ≡ (message_at master.now k).age }
{
    let at = slot_at(master[2], k);
    master[at + 2]
}

pub fn sequence_at(master: &[u64], k: usize) -> u64
    requires { length master.now ≡ master_words }
    ensures { (result ≡ sequence reads (message_at master.now k)) × (result < 65536) }
{
    let at = slot_at(master[2], k);
    master[at + 4] / 65536 / 65536 % 65536
}

pub fn steps_at(master: &[u64], k: usize) -> u64
    requires { length master.now ≡ master_words }
    ensures { result ≡ steps reads (message_at master.now k) }
{
    let at = slot_at(master[2], k);
    master[at + 4] / 65536 % 65536
}

// Whether the head accepts a clock: any, or one of its list.
pub fn acceptable(head: &[u64], clock: u64) -> bool
    requires { WholeHead head.now }
    ensures { result ≡ accepts_head head.now clock }
{
    let count = head[3] as usize;
    head[2] == 0 || head[4..4 + count].contains(&clock)
}

fn is_master(master: &[u64], clock: u64, number: u64) -> bool
    requires { length master.now ≡ master_words }
    ensures { result ≡ named (identity clock number) master.now }
{
    master[0] == clock && master[1] % 65536 == number
}

// The place of the first master with this identity, or the count of masters.
pub fn find_master(port: &[u64], clock: u64, number: u64) -> usize
    requires { WholePort port.now }
    ensures { result ≡ place port.now (identity clock number) }
{
    // A loop with `break`: paper 01 fixes this form of find_master.
    let count = port[1] as usize;
    let mut i = 0;
    let found = loop {
        if count <= i {
            break count;
        }
        let at = 4 + i * MASTER_WORDS;
        if is_master(&port[at..at + MASTER_WORDS], clock, number) {
            break i;
        }
        i += 1;
    };
    found
}
