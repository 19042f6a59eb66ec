// The types of PTP messages, after messages/mod.rs and messages/control_field.rs: their numbers, and the control field of each.
#![tactic(auto)]

ghost use Rattle.std.specs.Prelude.{◌≡◌, ◌≤◌, ok_or};
ghost use Rattle.refused.specs.declared.Refusal.TheVariants.{ReservedType};
ghost use Rattle.message_type.specs.Types.{type_of, type_number, control_of};

use refused::Refusal;

// The known types; the reserved ones have no name, so no writer can be given one.
#[derive(Clone, Copy, Debug, PartialEq, Eq)]
pub enum MessageType {
    Sync,
    DelayReq,
    PDelayReq,
    PDelayResp,
    FollowUp,
    DelayResp,
    PDelayRespFollowUp,
    Announce,
    Signaling,
    Management,
}

impl TryFrom<u8> for MessageType {
    type Error = Refusal;

    ghost try_from_gives = { λ value r. r ≡ ok_or (type_of value) ReservedType };

    #[tactic(auto, unfolding(crate::specs::Types::type_of))]
    fn try_from(value: u8) -> Result<MessageType, Refusal> {
        match value {
            0x0 => Ok(MessageType::Sync),
            0x1 => Ok(MessageType::DelayReq),
            0x2 => Ok(MessageType::PDelayReq),
            0x3 => Ok(MessageType::PDelayResp),
            0x8 => Ok(MessageType::FollowUp),
            0x9 => Ok(MessageType::DelayResp),
            0xa => Ok(MessageType::PDelayRespFollowUp),
            0xb => Ok(MessageType::Announce),
            0xc => Ok(MessageType::Signaling),
            0xd => Ok(MessageType::Management),
            _ => Err(Refusal::ReservedType),
        }
    }
}

impl MessageType {
    // The type's nibble on the wire.
    pub fn number(self) -> u8
        ensures { (result ≡ type_number self) × (result ≤ 13) }
    {
        match self {
            MessageType::Sync => 0x0,
            MessageType::DelayReq => 0x1,
            MessageType::PDelayReq => 0x2,
            MessageType::PDelayResp => 0x3,
            MessageType::FollowUp => 0x8,
            MessageType::DelayResp => 0x9,
            MessageType::PDelayRespFollowUp => 0xa,
            MessageType::Announce => 0xb,
            MessageType::Signaling => 0xc,
            MessageType::Management => 0xd,
        }
    }

    // What the control field of a message of this type says.
    pub fn control_field(self) -> u8
        ensures { result ≡ control_of self }
    {
        match self {
            MessageType::Sync => 0,
            MessageType::DelayReq => 1,
            MessageType::FollowUp => 2,
            MessageType::DelayResp => 3,
            MessageType::Management => 4,
            MessageType::PDelayReq => 5,
            MessageType::PDelayResp => 5,
            MessageType::PDelayRespFollowUp => 5,
            MessageType::Announce => 5,
            MessageType::Signaling => 5,
        }
    }
}
