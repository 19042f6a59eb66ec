// A message taken into the book, after register_announce_message of bmc/foreign_master.rs: the words then.
#![tactic(auto)]

ghost use Rattle.std.specs.Prelude.{◌≡◌, ◌<◌, length, get_or};
ghost use Rattle.slot.specs.Blocks.{block};
ghost use Rattle.slot.specs.Slot.{Narrow};
ghost use Rattle.history.specs.Rules.{masters_max};
ghost use Rattle.history.specs.Port.{sender};
ghost use Rattle.book.specs.Layout.{master_words, port_words, port_at, reads, WholePort};
ghost use Rattle.store.specs.Search.{place};
ghost use Rattle.book.specs.Rules.{SoundStore};
ghost use Rattle.admission.specs.Admit.{puts_out, appended, begun, evicted_at, registered, evicted_in, registered_in};

use header::PortIdentity;
use slot::ForeignAnnounceMessage;

// The message at the end of a master's ring: the ninth takes the room of the first. How many were put out.
fn append(master: &mut [u64], m: ForeignAnnounceMessage) -> u64
    requires { (length master.old ≡ master_words) × Narrow m }
    ensures { (result ≡ puts_out master.old) × (master.new ≡ appended master.old m) }
{
    let start = master[2];
    let count = master[3] as usize;
    let at = book::slot_at(start, count);
    slot_writer::store_message(&mut master[at..at + slot::SLOT_WORDS], m);
    if count < book::MESSAGES {
        master[3] = (count + 1) as u64;
        return 0;
    }
    master[2] = (start % 8 + 1) % 8;
    1
}

// A master with its first message.
fn begin(master: &mut [u64], source: PortIdentity, m: ForeignAnnounceMessage)
    requires { (length master.old ≡ master_words) × Narrow m }
    ensures { master.new ≡ begun master.old source m }
{
    slot_writer::store_message(&mut master[4..4 + slot::SLOT_WORDS], m);
    master[0] = source.clock_identity;
    master[1] = source.port_number as u64;
    master[2] = 0;
    master[3] = 1;
}

// The message at the end of its master's list, or in a new master at the end.
fn register_at(port: &mut [u64], m: ForeignAnnounceMessage) -> u64
    requires port_len { WholePort port.old × Narrow m }
    requires m_bound { place port.old (sender reads m) < masters_max }
    ensures { (result ≡ evicted_at port.old m) × (port.new ≡ registered port.old m) }
{
    let message = m.message;
    let source = message.header.source_port_identity;
    let count = port[1] as usize;
    let place = book::find_master(port, source.clock_identity, source.port_number as u64);
    let at = 4 + place * book::MASTER_WORDS;
    if place < count {
        return append(&mut port[at..at + book::MASTER_WORDS], m);
    }
    begin(&mut port[at..at + book::MASTER_WORDS], source, m);
    port[1] = (count + 1) as u64;
    0
}

// The message taken into the book, for a port that counts from 0. How many were put out.
pub fn register_in(store: &mut [u64], q: usize, m: ForeignAnnounceMessage) -> u64
    requires store_words_in_bounds { SoundStore store.old × (q < get_or store.old 0 0) }
    requires m_bound { (place (block store.old (port_at q) port_words) (sender reads m) < masters_max) × Narrow m }
    ensures { (result ≡ evicted_in store.old q m) × (store.new ≡ registered_in store.old q m) }
{
    let at = book::HEAD_WORDS + q * book::PORT_WORDS;
    register_at(&mut store[at..at + book::PORT_WORDS], m)
}
