// One held message in eight words of the store, after ForeignAnnounceMessage of bmc/foreign_master.rs, and how it is loaded. The sender's identity stands once, at its master, and not here.
#![tactic(auto)]

ghost use Rattle.std.specs.Prelude.{◌≡◌, length};
ghost use Rattle.slot.specs.Slot.{header_in, message_in, decode};

use announce::AnnounceMessage;
use header::{Header, PortIdentity};

// The message with its header, its age, and the number of the receipt.
#[derive(Clone, Copy)]
pub struct ForeignAnnounceMessage {
    pub message: AnnounceMessage,
    pub age: u64,
    pub receipt: u64,
}

// How many words a slot takes.
pub const SLOT_WORDS: usize = 8;

// The header that the words hold, from the sender that is given.
fn unpack_header(
    source: PortIdentity,
    correction: u64,
    counts: u64,
    quality: u64,
    origin: u64,
    rest: u64,
) -> Header
    ensures { result ≡ header_in source correction counts quality origin rest }
{
    header::header_of(
        (origin / 256 % 256) as u8,
        (rest / 256 % 256) as u8,
        (rest % 256) as u8,
        (origin % 256) as u8,
        (rest / 256 / 256 / 256 % 256) as u8,
        (rest / 256 / 256 % 256) as u8,
        correction,
        source,
        (counts / 65536 / 65536 % 65536) as u16,
        (quality % 256) as u8,
    )
}

// The message that the words hold, with the header that is given.
fn unpack_message(
    header: Header,
    grandmaster: u64,
    counts: u64,
    quality: u64,
    origin: u64,
    rest: u64,
) -> AnnounceMessage
    ensures { result ≡ message_in header grandmaster counts quality origin rest }
{
    announce::announce_of(
        header,
        origin / 256 / 256 % 0x1_0000_0000_0000,
        (rest / 256 / 256 / 256 / 256 % 0x1_0000_0000) as u32,
        (counts % 65536) as u16,
        (quality / 256 / 256 / 256 / 65536 / 256 / 256 % 256) as u8,
        (quality / 256 / 256 / 256 / 65536 / 256 % 256) as u8,
        (quality / 256 / 256 / 256 / 65536 % 256) as u8,
        (quality / 256 / 256 / 256 % 65536) as u16,
        (quality / 256 / 256 % 256) as u8,
        grandmaster,
        (counts / 65536 % 65536) as u16,
        (quality / 256 % 256) as u8,
    )
}

// The message that the eight words of a slot hold, from the sender that is given.
pub fn load_message(slot: &[u64], source: PortIdentity) -> ForeignAnnounceMessage
    requires { length slot.now ≡ 8 }
    ensures { result ≡ decode source slot.now }
{
    let counts = slot[4];
    let quality = slot[5];
    let origin = slot[6];
    let rest = slot[7];
    let header = unpack_header(source, slot[1], counts, quality, origin, rest);
    let message = unpack_message(header, slot[0], counts, quality, origin, rest);
    ForeignAnnounceMessage {
        message,
        age: slot[2],
        receipt: slot[3],
    }
}
