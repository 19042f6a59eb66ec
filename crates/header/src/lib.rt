// The common header of a PTP message, after messages/header.rs and common/port_identity.rs: its reader.
#![tactic(auto)]

ghost use Rattle.std.specs.Prelude.{◌≡◌, ◌+◌, ◌≤◌, length};
ghost use Rattle.header.specs.Wire.{port_identity_at, header_of, header_at, read_header};

use message_type::MessageType;
use refused::Refusal;

#[derive(Clone, Copy, PartialEq, Eq)]
pub struct PortIdentity {
    pub clock_identity: u64,
    pub port_number: u16,
}

#[derive(Clone, Copy, PartialEq, Eq)]
pub struct PtpVersion {
    pub major: u8,
    pub minor: u8,
}

// The correction is in units of 2^-16 ns.
#[derive(Clone, Copy, PartialEq, Eq)]
pub struct Header {
    pub sdo_id: u16,
    pub version: PtpVersion,
    pub domain_number: u8,
    pub alternate_master_flag: bool,
    pub two_step_flag: bool,
    pub unicast_flag: bool,
    pub ptp_profile_specific_1: bool,
    pub ptp_profile_specific_2: bool,
    pub leap61: bool,
    pub leap59: bool,
    pub current_utc_offset_valid: bool,
    pub ptp_timescale: bool,
    pub time_tracable: bool,
    pub frequency_tracable: bool,
    pub synchronization_uncertain: bool,
    pub correction_field: i64,
    pub source_port_identity: PortIdentity,
    pub sequence_id: u16,
    pub log_message_interval: i8,
}

// What the 34 bytes hold: the header, the type and the length field.
#[derive(Clone, Copy, PartialEq, Eq)]
pub struct DeserializedHeader {
    pub header: Header,
    pub message_type: MessageType,
    pub message_length: u16,
}

// How many bytes a header takes.
pub const HEADER_SIZE: usize = 34;

// A port identity from at on.
pub fn port_identity_at(s: &[u8], at: usize) -> PortIdentity
    requires { at + 10 ≤ length s.now }
    ensures { result ≡ port_identity_at s.now at }
{
    PortIdentity {
        clock_identity: wire::u64_at(s, at),
        port_number: wire::u16_at(s, at + 8),
    }
}

// What the numbers of the fields mean.
pub fn header_of(
    sdo_type: u8,
    versions: u8,
    domain: u8,
    sdo_low: u8,
    flags6: u8,
    flags7: u8,
    correction: u64,
    source: PortIdentity,
    sequence: u16,
    interval: u8,
) -> Header
    ensures { result ≡ header_of sdo_type versions domain sdo_low flags6 flags7 correction source sequence interval }
{
    let version = PtpVersion {
        major: versions % 16,
        minor: versions / 16,
    };
    Header {
        sdo_id: (sdo_type / 16) as u16 * 256 + sdo_low as u16,
        version,
        domain_number: domain,
        alternate_master_flag: flags6 / 1 % 2 == 1,
        two_step_flag: flags6 / 2 % 2 == 1,
        unicast_flag: flags6 / 4 % 2 == 1,
        ptp_profile_specific_1: flags6 / 32 % 2 == 1,
        ptp_profile_specific_2: flags6 / 64 % 2 == 1,
        leap61: flags7 / 1 % 2 == 1,
        leap59: flags7 / 2 % 2 == 1,
        current_utc_offset_valid: flags7 / 4 % 2 == 1,
        ptp_timescale: flags7 / 8 % 2 == 1,
        time_tracable: flags7 / 16 % 2 == 1,
        frequency_tracable: flags7 / 32 % 2 == 1,
        synchronization_uncertain: flags7 / 64 % 2 == 1,
        correction_field: correction.cast_signed(),
        source_port_identity: source,
        sequence_id: sequence,
        log_message_interval: interval.cast_signed(),
    }
}

// The header of a message.
pub fn header_at(s: &[u8]) -> Header
    requires { 34 ≤ length s.now }
    ensures { result ≡ header_at s.now }
{
    header_of(
        wire::u8_at(s, 0),
        wire::u8_at(s, 1),
        wire::u8_at(s, 4),
        wire::u8_at(s, 5),
        wire::u8_at(s, 6),
        wire::u8_at(s, 7),
        wire::u64_at(s, 8),
        port_identity_at(s, 20),
        wire::u16_at(s, 30),
        wire::u8_at(s, 33),
    )
}

// Reads a header: fewer than 34 bytes are refused 1, then a reserved type 2.
pub fn deserialize_header(buffer: &[u8]) -> Result<DeserializedHeader, Refusal>
    ensures { result ≡ read_header buffer.now }
{
    if buffer.len() < HEADER_SIZE {
        return Err(Refusal::Short);
    }
    let message_type = MessageType::try_from(wire::u8_at(buffer, 0) % 16)?;
    Ok(DeserializedHeader {
        header: header_at(buffer),
        message_type,
        message_length: wire::u16_at(buffer, 2),
    })
}
