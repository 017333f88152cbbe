// The numbers of DSO: the types of TLV, the opcode, and where the parts of a message begin.
ghost use Rattle.std.specs.Prelude.{◌≡◌};
ghost use Rattle.dso.specs.Types.{type_number, type_of};

// The types of TLV that are implemented (RFC 8490, 7; RFC 8765, 6.2 to 6.5).
#[derive(Clone, Copy, Debug, PartialEq, Eq)]
pub enum TlvType {
    Keepalive = 1,
    RetryDelay = 2,
    Subscribe = 0x40,
    Push = 0x41,
    Unsubscribe = 0x42,
    Reconfirm = 0x43,
}

// A number that stands for none of them.
#[derive(Clone, Copy, Debug, PartialEq, Eq)]
pub struct NotImplemented;

impl From<TlvType> for u16 {
    ghost from_gives = { λ kind number. number ≡ type_number kind };

    fn from(kind: TlvType) -> u16 {
        kind as u16
    }
}

impl TryFrom<u16> for TlvType {
    type Error = NotImplemented;

    ghost try_from_gives = { λ number read. read ≡ type_of number };

    #[tactic(auto, unfolding(crate::specs::Types::type_of))]
    fn try_from(number: u16) -> Result<TlvType, NotImplemented> {
        match number {
            1 => Ok(TlvType::Keepalive),
            2 => Ok(TlvType::RetryDelay),
            0x40 => Ok(TlvType::Subscribe),
            0x41 => Ok(TlvType::Push),
            0x42 => Ok(TlvType::Unsubscribe),
            0x43 => Ok(TlvType::Reconfirm),
            _ => Err(NotImplemented),
        }
    }
}

pub const OPCODE: u16 = 6;

// Where the first TLV begins, behind the header; and its data.
pub const HEADER: usize = 12;

pub const DATA: usize = 16;

// The type and class that stand for all; and the type of a CNAME record.
pub const ANY: u16 = 255;

pub const CNAME: u16 = 5;
