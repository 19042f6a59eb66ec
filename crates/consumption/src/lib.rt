// Consumption: after a decision on a port the winner's list stays as it was, and every other offered message is consumed.
#![tactic(auto)]

ghost use Rattle.std.specs.Prelude.{◌≡◌, ◌<◌, ◌≤◌, length, get_or};
ghost use Rattle.history.specs.Rules.{masters_max};
ghost use Rattle.book.specs.Layout.{master_words, port_words, WholePort};
ghost use Rattle.consumption.specs.Consume.{consumed, consumed_at, gone_at, consumed_in, gone_in};

// A master gives up its newest message: its ring holds one less.
fn consume_newest(master: &mut [u64])
    requires { (length master.old ≡ master_words) × (1 ≤ get_or master.old 3 0) }
    ensures { master.new ≡ consumed master.old }
{
    let count = master[3];
    master[3] = count - 1;
}

// Master i of a port gives up the message that it offers, unless it has won; and how many go.
fn consume_one(port: &mut [u64], winner: usize, i: usize) -> u64
    requires { (length port.old ≡ port_words) × (i < masters_max) }
    ensures { (port.new ≡ consumed_at winner i port.old) × (result ≡ gone_at winner port.old i) × (result ≤ 1) }
{
    if winner == i {
        return 0;
    }
    if !offers::offers(port, i) {
        return 0;
    }
    let at = 4 + i * book::MASTER_WORDS;
    consume_newest(&mut port[at..at + book::MASTER_WORDS]);
    1
}

// Every master of a port but the winner gives up the message that it offers; and how many go. `winner` is a place, the count or more where nobody won.
pub fn consume_port(port: &mut [u64], winner: usize) -> u64
    requires { WholePort port.old }
    ensures { (port.new ≡ consumed_in winner port.old) × (result ≡ gone_in winner port.old) × (result ≤ masters_max) }
{
    let count = port[1] as usize;
    let mut gone = 0;
    for i in 0..count {
        gone += consume_one(port, winner, i);
    }
    gone
}
