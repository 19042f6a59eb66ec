// What the masters of a port offer, on the words of the store: a master with two messages or more its newest.
#![tactic(auto)]

ghost use Rattle.std.specs.Prelude.{◌≡◌, ◌<◌, ◌≤◌, length, get_or};
ghost use Rattle.history.specs.Rules.{masters_max};
ghost use Rattle.history.specs.Port.{best_of};
ghost use Rattle.book.specs.Layout.{master_words, port_words, reads};
ghost use Rattle.offers.specs.Offers.{qualified, master_in, offers_at, newest_of, best_at};

use choice::BestAnnounceMessage;
use header::PortIdentity;

// How many messages a master must hold to offer one.
const FOREIGN_MASTER_THRESHOLD: u64 = 2;

// Whether a master that holds so many messages offers its newest.
pub fn is_qualified(messages: u64) -> bool
    ensures { result ≡ qualified messages }
{
    FOREIGN_MASTER_THRESHOLD <= messages
}

// Whether master i of a port offers a message.
pub fn offers(port: &[u64], i: usize) -> bool
    requires { (length port.now ≡ port_words) × (i < masters_max) }
    ensures { result ≡ offers_at port.now i }
{
    is_qualified(port[4 + i * book::MASTER_WORDS + 3])
}

// The newest message of a master, as its receiver offers it.
fn newest(master: &[u64], receiver: PortIdentity) -> BestAnnounceMessage
    requires { (length master.now ≡ master_words) × (1 ≤ get_or master.now 3 0) }
    ensures { result ≡ best_of reads receiver (newest_of master.now) }
{
    let source = PortIdentity {
        clock_identity: master[0],
        port_number: (master[1] % 65536) as u16,
    };
    let at = book::slot_at(master[2], (master[3] - 1) as usize);
    let held = slot::load_message(&master[at..at + slot::SLOT_WORDS], source);
    let message = held.message;
    BestAnnounceMessage {
        message,
        age: held.age,
        identity: receiver,
    }
}

// The newest message of master i of a port.
pub fn best_at(port: &[u64], i: usize, receiver: PortIdentity) -> BestAnnounceMessage
    requires { (length port.now ≡ port_words) × (i < masters_max) × (1 ≤ get_or (master_in port.now i) 3 0) }
    ensures { result ≡ best_at receiver port.now i }
{
    let at = 4 + i * book::MASTER_WORDS;
    newest(&port[at..at + book::MASTER_WORDS], receiver)
}
