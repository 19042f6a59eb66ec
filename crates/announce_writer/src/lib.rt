// Writing the content of an announce message, after messages/announce.rs: its 30 bytes, by the definitions of the crate announce.
#![tactic(auto)]

ghost use Rattle.std.specs.Prelude.{◌≡◌, ◌+◌, ◌≤◌, length};
ghost use Rattle.std.specs.Int.{w16};
ghost use Rattle.std.proofs.Common.{of_z};
ghost use Rattle.refused.specs.Refusal.{number_in};
ghost use Rattle.announce.specs.Wire.{reserved_of, with_content, fits_wire, write_answer, write_exit};

use announce::{AnnounceMessage, CONTENT_SIZE};
use refused::Refusal;

// The widths of the fields on the wire; the fourth is reserved.
const WIDTHS: [usize; 12] = [6, 4, 2, 1, 1, 1, 1, 2, 1, 8, 2, 1];

// The bits of the signed field.
pub fn offset_bits(a: AnnounceMessage) -> u16
    ensures { result ≡ of_z w16 a.current_utc_offset }
{
    a.current_utc_offset.cast_unsigned()
}

// What the writer puts into the reserved byte, 12, of the content: what lies there.
fn reserved_of(s: &[u8], at: usize) -> u8
    requires { at + 30 ≤ length s.now }
    ensures { result ≡ reserved_of s.now at }
{
    wire::u8_at(s, at + 12)
}

// Writes the 30 bytes of the content from at on.
pub fn put_content(a: AnnounceMessage, s: &mut [u8], at: usize)
    requires { at + 30 ≤ length s.old }
    ensures { s.new ≡ with_content s.old at a }
{
    let reserved = reserved_of(s, at);
    let quality = a.grandmaster_clock_quality;
    let values = [
        a.origin_timestamp.seconds,
        a.origin_timestamp.nanos as u64,
        offset_bits(a) as u64,
        reserved as u64,
        a.grandmaster_priority_1 as u64,
        quality.clock_class as u64,
        quality.clock_accuracy as u64,
        quality.offset_scaled_log_variance as u64,
        a.grandmaster_priority_2 as u64,
        a.grandmaster_identity,
        a.steps_removed as u64,
        a.time_source as u64,
    ];
    wire::put_fields(s, at, &WIDTHS, &values);
}

// Whether the wire can hold the content: seconds of 48 bits.
pub fn fits_wire(seconds: u64) -> bool
    ensures { result ≡ fits_wire seconds }
{
    seconds <= 0xFFFF_FFFF_FFFF
}

// Writes the content of a message: refused 15 where the wire cannot hold it, then 1 where the buffer is short.
// A refusal writes nothing.
pub fn serialize_content(a: AnnounceMessage, buffer: &mut [u8]) -> Result<(), Refusal>
    ensures { (number_in result ≡ write_answer buffer.old a) × (buffer.new ≡ write_exit buffer.old a) }
{
    if !fits_wire(a.origin_timestamp.seconds) {
        return Err(Refusal::Unfit);
    }
    if buffer.len() < CONTENT_SIZE {
        return Err(Refusal::Short);
    }
    put_content(a, buffer, 0);
    Ok(())
}
