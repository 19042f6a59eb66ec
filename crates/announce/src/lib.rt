// The announce message, after messages/announce.rs, common/timestamp.rs and common/clock_quality.rs: its content is 30 bytes after the header.
#![tactic(auto)]

ghost use Rattle.std.specs.Prelude.{◌≡◌, ◌+◌, ◌≤◌, length};
ghost use Rattle.announce.specs.Wire.{announce_of, content_at, read_content};

use header::Header;
use refused::Refusal;

#[derive(Clone, Copy, PartialEq, Eq)]
pub struct WireTimestamp {
    pub seconds: u64,
    pub nanos: u32,
}

// The accuracy is the byte of the wire, a reserved one too.
#[derive(Clone, Copy, PartialEq, Eq)]
pub struct ClockQuality {
    pub clock_class: u8,
    pub clock_accuracy: u8,
    pub offset_scaled_log_variance: u16,
}

// The time source is the byte of the wire, a reserved one too.
#[derive(Clone, Copy, PartialEq, Eq)]
pub struct AnnounceMessage {
    pub header: Header,
    pub origin_timestamp: WireTimestamp,
    pub current_utc_offset: i16,
    pub grandmaster_priority_1: u8,
    pub grandmaster_clock_quality: ClockQuality,
    pub grandmaster_priority_2: u8,
    pub grandmaster_identity: u64,
    pub steps_removed: u16,
    pub time_source: u8,
}

// How many bytes the content takes.
pub const CONTENT_SIZE: usize = 30;

// What the numbers of the fields mean.
pub fn announce_of(
    header: Header,
    seconds: u64,
    nanos: u32,
    utc_offset: u16,
    priority1: u8,
    class: u8,
    accuracy: u8,
    variance: u16,
    priority2: u8,
    grandmaster: u64,
    steps: u16,
    source: u8,
) -> AnnounceMessage
    ensures { result ≡ announce_of header seconds nanos utc_offset priority1 class accuracy variance priority2 grandmaster steps source }
{
    AnnounceMessage {
        header,
        origin_timestamp: WireTimestamp { seconds, nanos },
        current_utc_offset: utc_offset.cast_signed(),
        grandmaster_priority_1: priority1,
        grandmaster_clock_quality: ClockQuality {
            clock_class: class,
            clock_accuracy: accuracy,
            offset_scaled_log_variance: variance,
        },
        grandmaster_priority_2: priority2,
        grandmaster_identity: grandmaster,
        steps_removed: steps,
        time_source: source,
    }
}

// The message whose content stands from at on.
pub fn content_at(header: Header, s: &[u8], at: usize) -> AnnounceMessage
    requires { at + 30 ≤ length s.now }
    ensures { result ≡ content_at header s.now at }
{
    announce_of(
        header,
        wire::u48_at(s, at),
        wire::u32_at(s, at + 6),
        wire::u16_at(s, at + 10),
        wire::u8_at(s, at + 13),
        wire::u8_at(s, at + 14),
        wire::u8_at(s, at + 15),
        wire::u16_at(s, at + 16),
        wire::u8_at(s, at + 18),
        wire::u64_at(s, at + 19),
        wire::u16_at(s, at + 27),
        wire::u8_at(s, at + 29),
    )
}

// Reads the content of a message: fewer than 30 bytes are refused 1.
pub fn deserialize_content(header: Header, buffer: &[u8]) -> Result<AnnounceMessage, Refusal>
    ensures { result ≡ read_content header buffer.now }
{
    if buffer.len() < CONTENT_SIZE {
        return Err(Refusal::Short);
    }
    Ok(content_at(header, buffer, 0))
}
