// The kind of a TLV, after TlvType in common/tlv.rs: its name, its number, and whether it is passed on downstream.
#![tactic(auto)]

ghost use Rattle.std.specs.Prelude.{◌≡◌};
ghost use Rattle.tlv_type.specs.Kind.{kind_of, number_of, passed_on};

// The kinds that have names, and any other number.
#[derive(Clone, Copy, Debug, PartialEq, Eq)]
pub enum TlvType {
    Management,
    ManagementErrorStatus,
    OrganizationExtension,
    RequestUnicastTransmission,
    GrantUnicastTransmission,
    CancelUnicastTransmission,
    AcknowledgeCancelUnicastTransmission,
    PathTrace,
    AlternateTimeOffsetIndicator,
    OrganizationExtensionPropagate,
    EnhancedAccuracyMetrics,
    OrganizationExtensionDoNotPropagate,
    L1Sync,
    PortCommunicationAvailability,
    ProtocolAddress,
    SlaveRxSyncTimingData,
    SlaveRxSyncComputedData,
    SlaveTxEventTimestamps,
    CumulativeRateRatio,
    Pad,
    Authentication,
    Other(u16),
}

// The kind of a number.
impl From<u16> for TlvType {
    ghost from_gives = { λ value kind. kind ≡ kind_of value };

    #[tactic(auto, unfolding(crate::specs::Kind::kind_of))]
    fn from(value: u16) -> TlvType {
        match value {
            0x0000 | 0x000a..=0x3fff | 0x4002..=0x7fff | 0x800a..=0xffff => TlvType::Other(value),
            0x0001 => TlvType::Management,
            0x0002 => TlvType::ManagementErrorStatus,
            0x0003 => TlvType::OrganizationExtension,
            0x0004 => TlvType::RequestUnicastTransmission,
            0x0005 => TlvType::GrantUnicastTransmission,
            0x0006 => TlvType::CancelUnicastTransmission,
            0x0007 => TlvType::AcknowledgeCancelUnicastTransmission,
            0x0008 => TlvType::PathTrace,
            0x0009 => TlvType::AlternateTimeOffsetIndicator,
            0x4000 => TlvType::OrganizationExtensionPropagate,
            0x4001 => TlvType::EnhancedAccuracyMetrics,
            0x8000 => TlvType::OrganizationExtensionDoNotPropagate,
            0x8001 => TlvType::L1Sync,
            0x8002 => TlvType::PortCommunicationAvailability,
            0x8003 => TlvType::ProtocolAddress,
            0x8004 => TlvType::SlaveRxSyncTimingData,
            0x8005 => TlvType::SlaveRxSyncComputedData,
            0x8006 => TlvType::SlaveTxEventTimestamps,
            0x8007 => TlvType::CumulativeRateRatio,
            0x8008 => TlvType::Pad,
            0x8009 => TlvType::Authentication,
        }
    }
}

// The number of a kind.
impl From<TlvType> for u16 {
    ghost from_gives = { λ kind value. value ≡ number_of kind };

    fn from(kind: TlvType) -> u16 {
        match kind {
            TlvType::Management => 0x0001,
            TlvType::ManagementErrorStatus => 0x0002,
            TlvType::OrganizationExtension => 0x0003,
            TlvType::RequestUnicastTransmission => 0x0004,
            TlvType::GrantUnicastTransmission => 0x0005,
            TlvType::CancelUnicastTransmission => 0x0006,
            TlvType::AcknowledgeCancelUnicastTransmission => 0x0007,
            TlvType::PathTrace => 0x0008,
            TlvType::AlternateTimeOffsetIndicator => 0x0009,
            TlvType::OrganizationExtensionPropagate => 0x4000,
            TlvType::EnhancedAccuracyMetrics => 0x4001,
            TlvType::OrganizationExtensionDoNotPropagate => 0x8000,
            TlvType::L1Sync => 0x8001,
            TlvType::PortCommunicationAvailability => 0x8002,
            TlvType::ProtocolAddress => 0x8003,
            TlvType::SlaveRxSyncTimingData => 0x8004,
            TlvType::SlaveRxSyncComputedData => 0x8005,
            TlvType::SlaveTxEventTimestamps => 0x8006,
            TlvType::CumulativeRateRatio => 0x8007,
            TlvType::Pad => 0x8008,
            TlvType::Authentication => 0x8009,
            TlvType::Other(value) => value,
        }
    }
}

impl TlvType {
    // Whether an entry of this kind is passed on downstream with an announce.
    pub fn announce_propagate(self) -> bool
        ensures { result ≡ passed_on (number_of self) }
    {
        matches!(u16::from(self), 0x0008 | 0x0009 | 0x4000..=0x7fff)
    }
}
