// An announce with its header as words at fixed places, one a field, each the unsigned number that the field has on the wire.
#![tactic(auto)]

ghost use Rattle.std.specs.Prelude.{◌≡◌, ◌+◌, ◌≤◌, length};
ghost use Rattle.wire.specs.Be.{put};
ghost use Rattle.refused.specs.Refusal.{number_in};
ghost use Rattle.announce_words.specs.Words.{announce_size, announce_words, announce_refusal, announce_in};

use announce::AnnounceMessage;
use header::PortIdentity;
use refused::Refusal;

// How many words an announce takes.
pub const ANNOUNCE_WORDS: usize = 21;

// The most that each field holds.
const LIMITS: [u64; ANNOUNCE_WORDS] = [
    0xFFF,
    0xF,
    0xF,
    0xFF,
    0xFFFF,
    0xFFFF_FFFF_FFFF_FFFF,
    0xFFFF_FFFF_FFFF_FFFF,
    0xFFFF,
    0xFFFF,
    0xFF,
    0xFFFF_FFFF_FFFF,
    0xFFFF_FFFF,
    0xFFFF,
    0xFF,
    0xFF,
    0xFF,
    0xFFFF,
    0xFF,
    0xFFFF_FFFF_FFFF_FFFF,
    0xFFFF,
    0xFF,
];

// Writes the words of an announce from at on. Every other word stays.
pub fn put_announce(a: AnnounceMessage, s: &mut [u64], at: usize)
    requires { at + announce_size ≤ length s.old }
    ensures { s.new ≡ put s.old at (announce_words a) }
{
    let h = a.header;
    let version = h.version;
    let source = h.source_port_identity;
    let origin = a.origin_timestamp;
    let quality = a.grandmaster_clock_quality;
    let values = [
        h.sdo_id as u64,
        version.major as u64,
        version.minor as u64,
        h.domain_number as u64,
        header_writer::flags6_of(h) as u64 * 256 + header_writer::flags7_of(h) as u64,
        header_writer::correction_bits(h),
        source.clock_identity,
        source.port_number as u64,
        h.sequence_id as u64,
        header_writer::interval_bits(h) as u64,
        origin.seconds,
        origin.nanos as u64,
        announce_writer::offset_bits(a) as u64,
        a.grandmaster_priority_1 as u64,
        quality.clock_class as u64,
        quality.clock_accuracy as u64,
        quality.offset_scaled_log_variance as u64,
        a.grandmaster_priority_2 as u64,
        a.grandmaster_identity,
        a.steps_removed as u64,
        a.time_source as u64,
    ];
    lent::put_words(s, at, &values);
}

// Whether the words are an announce: Short where they are too few, then Unfit where a word is more than its field holds.
pub fn refusal(s: &[u64]) -> Result<(), Refusal>
    ensures { number_in result ≡ announce_refusal s.now }
{
    lent::check(s, &LIMITS)
}

// The announce that the words hold; of a word that does not fit its field the lowest bits count.
pub fn announce_of(s: &[u64]) -> AnnounceMessage
    requires { announce_size ≤ length s.now }
    ensures { result ≡ announce_in s.now }
{
    let source = PortIdentity {
        clock_identity: s[6],
        port_number: (s[7] % 65536) as u16,
    };
    let header = header::header_of(
        (s[0] / 256 % 16 * 16 + 11) as u8,
        (s[2] % 16 * 16 + s[1] % 16) as u8,
        (s[3] % 256) as u8,
        (s[0] % 256) as u8,
        (s[4] / 256 % 256) as u8,
        (s[4] % 256) as u8,
        s[5],
        source,
        (s[8] % 65536) as u16,
        (s[9] % 256) as u8,
    );
    announce::announce_of(
        header,
        s[10] % 0x1_0000_0000_0000,
        (s[11] % 0x1_0000_0000) as u32,
        (s[12] % 65536) as u16,
        (s[13] % 256) as u8,
        (s[14] % 256) as u8,
        (s[15] % 256) as u8,
        (s[16] % 65536) as u16,
        (s[17] % 256) as u8,
        s[18],
        (s[19] % 65536) as u16,
        (s[20] % 256) as u8,
    )
}
