// What a row tells of, by the byte that ends its key.
ghost use Rattle.sheet.specs.Kinds.{KindOfByte};

use std::error::Error;
use std::fmt;

#[derive(Clone, Copy, PartialEq, Eq, Debug)]
pub enum Kind {
    DayAheadEnergy,
    HaspEnergy,
    OptimalEnergy,
    RerateEnergy,
    MinimumLoadEnergy,
    SelfScheduleEnergy,
    PumpingEnergy,
    TorBalance,
    VirtualAward,
    AncillaryAward,
    MeteredEnergy,
    DayAheadBid,
    DayAheadSchedule,
    RealTimeBid,
    RealTimeSchedule,
    AncillaryBid,
    VirtualBid,
    TradeSide,
    TorSupply,
    TorDemand,
}

// A byte that stands for no kind.
#[derive(Clone, Copy, PartialEq, Eq, Debug)]
pub struct UnknownKind(pub u8);

impl TryFrom<u8> for Kind {
    type Error = UnknownKind;

    ghost try_from_gives = { KindOfByte };

    // Inlined, so that asking for one kind is a comparison and no jump by the byte.
    #[inline(always)]
    fn try_from(byte: u8) -> Result<Self, UnknownKind> {
        match byte {
            1 => Ok(Kind::DayAheadEnergy),
            2 => Ok(Kind::HaspEnergy),
            3 => Ok(Kind::OptimalEnergy),
            4 => Ok(Kind::RerateEnergy),
            5 => Ok(Kind::MinimumLoadEnergy),
            6 => Ok(Kind::SelfScheduleEnergy),
            7 => Ok(Kind::PumpingEnergy),
            8 => Ok(Kind::TorBalance),
            9 | 10 => Ok(Kind::VirtualAward),
            11..=14 => Ok(Kind::AncillaryAward),
            20 => Ok(Kind::MeteredEnergy),
            30 => Ok(Kind::DayAheadBid),
            31 => Ok(Kind::DayAheadSchedule),
            32 => Ok(Kind::RealTimeBid),
            33 => Ok(Kind::RealTimeSchedule),
            34 => Ok(Kind::AncillaryBid),
            35 => Ok(Kind::VirtualBid),
            40 => Ok(Kind::TradeSide),
            50 => Ok(Kind::TorSupply),
            51 => Ok(Kind::TorDemand),
            _ => Err(UnknownKind(byte)),
        }
    }
}

impl fmt::Display for UnknownKind {
    fn fmt<W: fmt::Write>(&self, f: &mut fmt::Formatter<W>) -> fmt::Result {
        write!(f, "no kind of row has the byte {}", self.0)
    }
}

impl Error for UnknownKind {}
