// Cases of the kind of a number.
use tlv_type::TlvType;

// The number of a kind, and whether it has a name.
fn number_of(kind: TlvType) -> (u16, bool) {
    let number = match kind {
        TlvType::Management => 1,
        TlvType::ManagementErrorStatus => 2,
        TlvType::OrganizationExtension => 3,
        TlvType::RequestUnicastTransmission => 4,
        TlvType::GrantUnicastTransmission => 5,
        TlvType::CancelUnicastTransmission => 6,
        TlvType::AcknowledgeCancelUnicastTransmission => 7,
        TlvType::PathTrace => 8,
        TlvType::AlternateTimeOffsetIndicator => 9,
        TlvType::OrganizationExtensionPropagate => 0x4000,
        TlvType::EnhancedAccuracyMetrics => 0x4001,
        TlvType::OrganizationExtensionDoNotPropagate => 0x8000,
        TlvType::L1Sync => 0x8001,
        TlvType::PortCommunicationAvailability => 0x8002,
        TlvType::ProtocolAddress => 0x8003,
        TlvType::SlaveRxSyncTimingData => 0x8004,
        TlvType::SlaveRxSyncComputedData => 0x8005,
        TlvType::SlaveTxEventTimestamps => 0x8006,
        TlvType::CumulativeRateRatio => 0x8007,
        TlvType::Pad => 0x8008,
        TlvType::Authentication => 0x8009,
        TlvType::Other(value) => return (value, false),
    };
    (number, true)
}

// Whether a number has a name.
fn named(n: u16) -> bool {
    matches!(n, 1..=9 | 0x4000..=0x4001 | 0x8000..=0x8009)
}

// Whether an entry of a number is passed on.
fn passed_on(n: u16) -> bool {
    matches!(n, 8..=9 | 0x4000..=0x7FFF)
}

// Every number.
pub fn number(n: u64) -> bool {
    let number = (n % 65536) as u16;
    let kind = TlvType::from(number);
    number_of(kind) == (number, named(number))
        && u16::from(kind) == number
        && kind.announce_propagate() == passed_on(number)
}

// A kind by its name, as the kind of its number.
fn is(kind: TlvType, number: u16, passed: bool) -> bool {
    kind == TlvType::from(number)
        && u16::from(kind) == number
        && kind.announce_propagate() == passed
}

pub fn name(n: u64) -> bool {
    match n {
        0 => is(TlvType::Management, 0x0001, false),
        1 => is(TlvType::ManagementErrorStatus, 0x0002, false),
        2 => is(TlvType::OrganizationExtension, 0x0003, false),
        3 => is(TlvType::RequestUnicastTransmission, 0x0004, false),
        4 => is(TlvType::GrantUnicastTransmission, 0x0005, false),
        5 => is(TlvType::CancelUnicastTransmission, 0x0006, false),
        6 => is(TlvType::AcknowledgeCancelUnicastTransmission, 0x0007, false),
        7 => is(TlvType::PathTrace, 0x0008, true),
        8 => is(TlvType::AlternateTimeOffsetIndicator, 0x0009, true),
        9 => is(TlvType::OrganizationExtensionPropagate, 0x4000, true),
        10 => is(TlvType::EnhancedAccuracyMetrics, 0x4001, true),
        _ => name_on(n),
    }
}

fn name_on(n: u64) -> bool {
    match n {
        11 => is(TlvType::OrganizationExtensionDoNotPropagate, 0x8000, false),
        12 => is(TlvType::L1Sync, 0x8001, false),
        13 => is(TlvType::PortCommunicationAvailability, 0x8002, false),
        14 => is(TlvType::ProtocolAddress, 0x8003, false),
        15 => is(TlvType::SlaveRxSyncTimingData, 0x8004, false),
        16 => is(TlvType::SlaveRxSyncComputedData, 0x8005, false),
        17 => is(TlvType::SlaveTxEventTimestamps, 0x8006, false),
        18 => is(TlvType::CumulativeRateRatio, 0x8007, false),
        19 => is(TlvType::Pad, 0x8008, false),
        20 => is(TlvType::Authentication, 0x8009, false),
        _ => other(n),
    }
}

// The neighbours of the names, and of what is passed on.
fn other(n: u64) -> bool {
    match n {
        21 => is(TlvType::Other(0x0000), 0x0000, false),
        22 => is(TlvType::Other(0x000A), 0x000A, false),
        23 => is(TlvType::Other(0x3FFF), 0x3FFF, false),
        24 => is(TlvType::Other(0x4002), 0x4002, true),
        25 => is(TlvType::Other(0x7FFF), 0x7FFF, true),
        26 => is(TlvType::Other(0x800A), 0x800A, false),
        27 => is(TlvType::Other(0xFFFF), 0xFFFF, false),
        28 => is(TlvType::Other(0x7EFF), 0x7EFF, true),
        29 => is(TlvType::Other(0x7F00), 0x7F00, true),
        30 => is(TlvType::Other(0x2004), 0x2004, false),
        _ => is(TlvType::Other(0xC000), 0xC000, false),
    }
}
