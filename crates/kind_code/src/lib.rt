// The number by which programs print the name of a TLV's kind: its place among the names, from 1 on, where a kind has one.
#![tactic(auto)]

use tlv_type::TlvType;

pub fn name_code(kind: TlvType) -> Option<u8> {
    let code = match kind {
        TlvType::Other(_) => return None,
        TlvType::Management => 0x01,
        TlvType::ManagementErrorStatus => 0x02,
        TlvType::OrganizationExtension => 0x03,
        TlvType::RequestUnicastTransmission => 0x04,
        TlvType::GrantUnicastTransmission => 0x05,
        TlvType::CancelUnicastTransmission => 0x06,
        TlvType::AcknowledgeCancelUnicastTransmission => 0x07,
        TlvType::PathTrace => 0x08,
        TlvType::AlternateTimeOffsetIndicator => 0x09,
        TlvType::OrganizationExtensionPropagate => 0x0a,
        TlvType::EnhancedAccuracyMetrics => 0x0b,
        TlvType::OrganizationExtensionDoNotPropagate => 0x0c,
        TlvType::L1Sync => 0x0d,
        TlvType::PortCommunicationAvailability => 0x0e,
        TlvType::ProtocolAddress => 0x0f,
        TlvType::SlaveRxSyncTimingData => 0x10,
        TlvType::SlaveRxSyncComputedData => 0x11,
        TlvType::SlaveTxEventTimestamps => 0x12,
        TlvType::CumulativeRateRatio => 0x13,
        TlvType::Pad => 0x14,
        TlvType::Authentication => 0x15,
    };
    Some(code)
}
