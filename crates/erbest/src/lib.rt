// The choice of a port's Erbest, on the places of its masters and the words of the store.
#![tactic(auto)]

ghost use Rattle.std.specs.Prelude.{◌≡◌, ◌<◌, ◌≤◌, length, get_or};
ghost use Rattle.history.specs.Rules.{masters_max};
ghost use Rattle.book.specs.Layout.{port_words};
ghost use Rattle.offers.specs.Offers.{master_in};
ghost use Rattle.erbest.specs.Place.{Offered, keep_offered, winner_place, best_in};

use choice::BestAnnounceMessage;
use header::PortIdentity;

// One step of the choice: master i against the one held, if it offers a message.
fn keep(port: &[u64], held: usize, i: usize) -> usize
    requires port_len { (length port.now ≡ port_words) × (get_or port.now 1 0 ≤ masters_max) × (i < get_or port.now 1 0) }
    requires offered { Offered port.now held }
    ensures { result ≡ keep_offered port.now held i }
{
    if !offers::offers(port, i) {
        return held;
    }
    let count = port[1] as usize;
    if count <= held {
        return i;
    }
    let a = 4 + held * book::MASTER_WORDS;
    let b = 4 + i * book::MASTER_WORDS;
    if stays::stays(
        &port[a..a + book::MASTER_WORDS],
        &port[b..b + book::MASTER_WORDS],
    ) {
        held
    } else {
        i
    }
}

// The place of the master whose message is the port's Erbest, or the count of masters where none offers: from the last to the first.
pub fn port_winner(port: &[u64]) -> usize
    requires { (length port.now ≡ port_words) × (get_or port.now 1 0 ≤ masters_max) }
    ensures { result ≡ winner_place port.now }
{
    let count = port[1] as usize;
    let mut held = count;
    for i in (0..count).rev() {
        held = keep(port, held, i);
    }
    held
}

// The port's Erbest, by the place of its master; the count of masters is nobody's.
pub fn erbest(port: &[u64], winner: usize, receiver: PortIdentity) -> Option<BestAnnounceMessage>
    requires port_len { (length port.now ≡ port_words) × (get_or port.now 1 0 ≤ masters_max) }
    requires bound { winner < get_or port.now 1 0 → 1 ≤ get_or (master_in port.now winner) 3 0 }
    ensures { result ≡ best_in receiver port.now winner }
{
    let count = port[1] as usize;
    if count <= winner {
        return None;
    }
    Some(offers::best_at(port, winner, receiver))
}
