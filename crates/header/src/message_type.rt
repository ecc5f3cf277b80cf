// The message types that have a rule, and the numbers that they have in a header.
ghost use Rattle.header.specs.MessageType.{Decodes};

#[derive(Clone, Copy, PartialEq, Eq)]
pub enum MessageType {
    CallProceeding = 0x02,
    Setup = 0x05,
    Connect = 0x07,
    ConnectAcknowledge = 0x0F,
    Restart = 0x46,
    Release = 0x4D,
    RestartAcknowledge = 0x4E,
    ReleaseComplete = 0x5A,
    StatusEnquiry = 0x75,
    Status = 0x7D,
}

// A number that is none of them.
#[derive(Clone, Copy, PartialEq, Eq)]
pub struct UnknownType(pub u8);

impl TryFrom<u8> for MessageType {
    type Error = UnknownType;

    ghost try_from_gives = { Decodes };

    fn try_from(number: u8) -> Result<MessageType, UnknownType> {
        Ok(match number {
            0x02 => MessageType::CallProceeding,
            0x05 => MessageType::Setup,
            0x07 => MessageType::Connect,
            0x0F => MessageType::ConnectAcknowledge,
            0x46 => MessageType::Restart,
            0x4D => MessageType::Release,
            0x4E => MessageType::RestartAcknowledge,
            0x5A => MessageType::ReleaseComplete,
            0x75 => MessageType::StatusEnquiry,
            0x7D => MessageType::Status,
            _ => return Err(UnknownType(number)),
        })
    }
}
