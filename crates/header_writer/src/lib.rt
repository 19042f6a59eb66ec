// Writing the common header, after messages/header.rs: its 34 bytes, by the definitions of the crate header.
#![tactic(auto)]

ghost use Rattle.std.specs.Prelude.{◌≡◌, ◌≤◌, length};
ghost use Rattle.std.specs.Int.{w8, w64};
ghost use Rattle.std.proofs.Common.{of_z};
ghost use Rattle.wire.specs.Flags.{num, pack};
ghost use Rattle.refused.specs.Refusal.{number_in};
ghost use Rattle.header.specs.Wire.{bits6, bits7, with_header, fits_wire, write_answer, write_exit};

use header::{HEADER_SIZE, Header};
use message_type::MessageType;
use refused::Refusal;

// How many bytes may follow it, so that the length field can tell the whole.
const CONTENT_LIMIT: usize = 65501;

// The widths of the fields on the wire.
const WIDTHS: [usize; 14] = [1, 1, 2, 1, 1, 1, 1, 8, 4, 8, 2, 2, 1, 1];

// 1 or 0.
fn flag(b: bool) -> u8
    ensures { (result ≡ num b) × (result ≤ 1) }
{
    u8::from(b)
}

pub fn flags6_of(h: Header) -> u8
    ensures { result ≡ pack (bits6 h) }
{
    flag(h.alternate_master_flag)
        + flag(h.two_step_flag) * 2
        + flag(h.unicast_flag) * 4
        + flag(h.ptp_profile_specific_1) * 32
        + flag(h.ptp_profile_specific_2) * 64
}

pub fn flags7_of(h: Header) -> u8
    ensures { result ≡ pack (bits7 h) }
{
    flag(h.leap61)
        + flag(h.leap59) * 2
        + flag(h.current_utc_offset_valid) * 4
        + flag(h.ptp_timescale) * 8
        + flag(h.time_tracable) * 16
        + flag(h.frequency_tracable) * 32
        + flag(h.synchronization_uncertain) * 64
}

// The bits of the two signed fields.

pub fn correction_bits(h: Header) -> u64
    ensures { result ≡ of_z w64 h.correction_field }
{
    h.correction_field.cast_unsigned()
}

pub fn interval_bits(h: Header) -> u8
    ensures { result ≡ of_z w8 h.log_message_interval }
{
    h.log_message_interval.cast_unsigned()
}

// Writes the 34 bytes of a header over a message of `size` bytes in all.
pub fn put_header(h: Header, content_type: MessageType, size: u16, s: &mut [u8])
    requires { 34 ≤ length s.old }
    ensures { s.new ≡ with_header s.old h content_type size }
{
    let values = [
        (h.sdo_id / 256) as u64 * 16 + content_type.number() as u64,
        h.version.minor as u64 * 16 + h.version.major as u64,
        size as u64,
        h.domain_number as u64,
        (h.sdo_id % 256) as u64,
        flags6_of(h) as u64,
        flags7_of(h) as u64,
        correction_bits(h),
        0,
        h.source_port_identity.clock_identity,
        h.source_port_identity.port_number as u64,
        h.sequence_id as u64,
        content_type.control_field() as u64,
        interval_bits(h) as u64,
    ];
    wire::put_fields(s, 0, &WIDTHS, &values);
}

// Whether the wire can hold a header and what it says of the message's length.
#[tactic(auto, unfolding(header::specs::Wire::fits_wire))]
pub fn fits_wire(sdo: u16, major: u8, minor: u8, content: usize) -> bool
    ensures { result ≡ fits_wire sdo major minor content }
{
    sdo <= 0xFFF && major <= 15 && minor <= 15 && content <= CONTENT_LIMIT
}

// Writes a header over a content of the given length: refused 15 where the wire cannot hold it, then 1 where the buffer is
// short. A refusal writes nothing.
pub fn serialize_header(
    h: Header,
    content_type: MessageType,
    content_length: usize,
    buffer: &mut [u8],
) -> Result<(), Refusal>
    ensures { (number_in result ≡ write_answer buffer.old h content_length) × (buffer.new ≡ write_exit buffer.old h content_type content_length) }
{
    if !fits_wire(h.sdo_id, h.version.major, h.version.minor, content_length) {
        return Err(Refusal::Unfit);
    }
    if buffer.len() < HEADER_SIZE {
        return Err(Refusal::Short);
    }
    let size = (content_length + HEADER_SIZE) as u16;
    put_header(h, content_type, size, buffer);
    Ok(())
}
