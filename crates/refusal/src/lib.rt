// Whether a message is taken into the book, after register_announce_message of bmc/foreign_master.rs: the refusals, in their order.
#![tactic(auto)]

ghost use Rattle.std.specs.Prelude.{◌≡◌, ◌<◌, ◌≤◌, length, get_or};
ghost use Rattle.slot.specs.Blocks.{block};
ghost use Rattle.book.specs.Layout.{master_words, port_words, master_at, WholeHead, WholePort};
ghost use Rattle.book.specs.Rules.{HeldPort, SoundStore};
ghost use Rattle.refused.specs.Refusal.{number_in};
ghost use Rattle.refusal.specs.Refusal.{order_at, room_refusal, refusal_at, refusal_in};

use header::PortIdentity;
use refused::Refusal;
use slot::ForeignAnnounceMessage;

// Whether a message may follow the last one of the master at a place; true at the place behind the last master.
fn in_order(port: &[u64], place: usize, sequence: u16) -> bool
    requires port_len { WholePort port.now }
    requires bound { place < get_or port.now 1 0 → 1 ≤ get_or (block port.now (master_at place) master_words) 3 0 }
    ensures { result ≡ order_at port.now place sequence }
{
    let count = port[1] as usize;
    if count <= place {
        return true;
    }
    let at = 4 + place * book::MASTER_WORDS;
    let master = &port[at..at + book::MASTER_WORDS];
    let last = master[3] as usize - 1;
    history::in_step(book::sequence_at(master, last), sequence as u64)
}

// The refusals of a registration on port k, after the frame's, in their order.
fn refusal_at(
    head: &[u64],
    port: &[u64],
    k: u16,
    source: PortIdentity,
    sequence: u16,
    steps: u16,
) -> Result<(), Refusal>
    requires head_len { WholeHead head.now × (length port.now ≡ port_words) }
    requires held_port { HeldPort head.now port.now }
    ensures { number_in result ≡ refusal_at head.now port.now k source sequence steps }
{
    let own = PortIdentity {
        clock_identity: head[1],
        port_number: k,
    };
    if same::same_port(source, own) {
        return Err(Refusal::OwnPort);
    }
    if !book::acceptable(head, source.clock_identity) {
        return Err(Refusal::NotAcceptable);
    }
    if source.clock_identity == head[1] {
        return Err(Refusal::OwnClock);
    }
    let place = book::find_master(port, source.clock_identity, source.port_number as u64);
    if !in_order(port, place, sequence) {
        return Err(Refusal::Sequence);
    }
    if 255 <= steps {
        return Err(Refusal::Steps);
    }
    room_refusal(place, port[1] as usize)
}

// A new master on a port that is full is refused 12.
fn room_refusal(place: usize, count: usize) -> Result<(), Refusal>
    ensures { number_in result ≡ room_refusal place count }
{
    if place < count || count < history::MASTERS {
        return Ok(());
    }
    Err(Refusal::NinthMaster)
}

// The same on a port of the store that counts from 0.
pub fn refusal(store: &[u64], q: usize, m: ForeignAnnounceMessage) -> Result<(), Refusal>
    requires { SoundStore store.now × (q < get_or store.now 0 0) }
    ensures { number_in result ≡ refusal_in store.now q m }
{
    let message = m.message;
    let header = message.header;
    let at = book::HEAD_WORDS + q * book::PORT_WORDS;
    refusal_at(
        &store[0..book::HEAD_WORDS],
        &store[at..at + book::PORT_WORDS],
        q as u16 + 1,
        header.source_port_identity,
        header.sequence_id,
        message.steps_removed,
    )
}
