// A message stored in the eight words of a slot, by the definitions of the crate slot.
#![tactic(auto)]

ghost use Rattle.std.specs.Prelude.{◌≡◌, ◌*◌, ◌+◌, ◌/◌, ◌%◌, ◌≤◌, length};
ghost use Rattle.slot.specs.Slot.{Narrow, counts, quality, origin, rest, encode};

use slot::ForeignAnnounceMessage;

// The four words that hold several fields.

fn pack_counts(sequence: u16, steps: u16, utc: u16) -> u64
    ensures { result ≡ counts sequence steps utc }
{
    ((sequence as u64) * 65536 + (steps as u64)) * 65536 + (utc as u64)
}

fn pack_quality(
    priority1: u8,
    class: u8,
    accuracy: u8,
    variance: u16,
    priority2: u8,
    source: u8,
    interval: u8,
) -> u64
    ensures { result ≡ quality priority1 class accuracy variance priority2 source interval }
{
    let high = ((priority1 as u64) * 256 + (class as u64)) * 256 + (accuracy as u64);
    let middle = (high * 65536 + (variance as u64)) * 256 + (priority2 as u64);
    (middle * 256 + (source as u64)) * 256 + (interval as u64)
}

// Of byte 0 of a header the low nibble is the type, 11.
fn pack_origin(seconds: u64, sdo: u16) -> u64
    requires { (seconds ≤ 0xFFFFFFFFFFFF) × (sdo ≤ 0xFFF) }
    ensures { result ≡ origin seconds (sdo / 256 * 16 + 11) (sdo % 256) }
{
    (seconds * 256 + ((sdo / 256) as u64 * 16 + 11)) * 256 + ((sdo % 256) as u64)
}

fn pack_rest(nanos: u32, flags6: u8, flags7: u8, major: u8, minor: u8, domain: u8) -> u64
    requires { (major ≤ 15) × (minor ≤ 15) }
    ensures { result ≡ rest nanos flags6 flags7 (minor * 16 + major) domain }
{
    let flags = ((nanos as u64) * 256 + (flags6 as u64)) * 256 + (flags7 as u64);
    (flags * 256 + (minor as u64 * 16 + major as u64)) * 256 + (domain as u64)
}

// The eight words of a slot become those of the message.
pub fn store_message(slot: &mut [u64], m: ForeignAnnounceMessage)
    requires slot_len { length slot.old ≡ 8 }
    requires narrow { Narrow m }
    ensures { slot.new ≡ encode m }
{
    let message = m.message;
    let header = message.header;
    let version = header.version;
    let stamp = message.origin_timestamp;
    let clock = message.grandmaster_clock_quality;
    let correction = header_writer::correction_bits(header);
    let counts = pack_counts(
        header.sequence_id,
        message.steps_removed,
        announce_writer::offset_bits(message),
    );
    let quality = pack_quality(
        message.grandmaster_priority_1,
        clock.clock_class,
        clock.clock_accuracy,
        clock.offset_scaled_log_variance,
        message.grandmaster_priority_2,
        message.time_source,
        header_writer::interval_bits(header),
    );
    let origin = pack_origin(stamp.seconds, header.sdo_id);
    let rest = pack_rest(
        stamp.nanos,
        header_writer::flags6_of(header),
        header_writer::flags7_of(header),
        version.major,
        version.minor,
        header.domain_number,
    );
    slot[0] = message.grandmaster_identity;
    slot[1] = correction;
    slot[2] = m.age;
    slot[3] = m.receipt;
    slot[4] = counts;
    slot[5] = quality;
    slot[6] = origin;
    slot[7] = rest;
}
