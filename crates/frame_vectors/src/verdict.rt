//! The verdict on a frame, as the files write it.
use frame::reader::read;
use frame_logs::line::Line;
use frame_logs::standing::NoHexadecimal;
use protocol::refusal::FrameFault;
use std::fmt;
use tally::kind::Tally;

/// Why a line is no lawful frame.
#[derive(Clone, Copy)]
pub enum Unlawful {
    /// The frame is refused.
    Refused(FrameFault),
    /// The line is no hexadecimal.
    NoHexadecimal,
}

impl From<FrameFault> for Unlawful {
    fn from(fault: FrameFault) -> Unlawful {
        Unlawful::Refused(fault)
    }
}

impl From<NoHexadecimal> for Unlawful {
    fn from(_why: NoHexadecimal) -> Unlawful {
        Unlawful::NoHexadecimal
    }
}

impl fmt::Display for Unlawful {
    fn fmt<W: fmt::Write>(&self, f: &mut fmt::Formatter<W>) -> fmt::Result {
        match self {
            Unlawful::Refused(fault) => {
                write!(f, "{:02x} {:04x}", fault.condition.number(), fault.place)?;
                match fault.condition.inside() {
                    Some(inside) => write!(f, " {inside:02x}"),
                    None => Ok(()),
                }
            }
            Unlawful::NoHexadecimal => write!(f, "no hexadecimal"),
        }
    }
}

/// Reads a frame in hexadecimal; the verdict is whether it is lawful.
pub fn judge<K: Tally>(digits: &[u8]) -> Result<(), Unlawful> {
    let mut line = Line::empty();
    for byte in digits {
        line.take(*byte);
    }
    read::<K>(line.bytes()?)?;
    Ok(())
}
