//! The header of a block by its fields, and the ten bytes that they take.

ghost use Rattle.std.specs.Prelude.{◌≡◌, ◌<◌, ◌↔◌, IsTrue};
ghost use Rattle.block_codec.specs.Header.{Fits, IsHeader, flag_byte, header_bytes};

use crate::protocol::HEADER_LENGTH;

/// The header of a block.
#[derive(Clone, Copy, Debug, PartialEq, Eq)]
pub struct Header {
    /// The R bit: the block goes from the equipment to the host.
    pub from_equipment: bool,
    /// The device of the equipment, below 32,768 where the header fits.
    pub device: u16,
    /// The W bit: the sender awaits a reply.
    pub wait: bool,
    /// The stream, below 128 where the header fits.
    pub stream: u8,
    /// The function within the stream.
    pub function: u8,
    /// The E bit: this is the last block of its message.
    pub last: bool,
    /// The number of the block in its message, below 32,768 where the header fits.
    pub number: u16,
    /// The system bytes, as one number.
    pub system: u32,
}

impl Header {
    /// Whether each field has room in its bits: `device` and `number` are below 32,768 and `stream` is below 128.
    pub fn fits(&self) -> bool
        ensures { IsTrue result ↔ Fits self.now }
    {
        self.device < 0x8000 && self.stream < 0x80 && self.number < 0x8000
    }

    /// The ten bytes of a header that fits.
    pub fn to_bytes(&self) -> [u8; HEADER_LENGTH]
        requires { Fits self.now }
        ensures { result ≡ header_bytes self.now }
    {
        let [device_high, device_low] = self.device.to_be_bytes();
        let [number_high, number_low] = self.number.to_be_bytes();
        let [system_3, system_2, system_1, system_0] = self.system.to_be_bytes();
        [
            with_flag(self.from_equipment, device_high),
            device_low,
            with_flag(self.wait, self.stream),
            self.function,
            with_flag(self.last, number_high),
            number_low,
            system_3,
            system_2,
            system_1,
            system_0,
        ]
    }

    /// The header whose bytes these are. Every ten bytes are those of one header, and it fits.
    pub fn from_bytes(bytes: &[u8; HEADER_LENGTH]) -> Header
        ensures is_header { IsHeader result }
        ensures bytes { header_bytes result ≡ bytes.now }
    {
        let (from_equipment, device_high) = split_flag(bytes[0]);
        let (wait, stream) = split_flag(bytes[2]);
        let (last, number_high) = split_flag(bytes[4]);
        Header {
            from_equipment,
            device: u16::from_be_bytes([device_high, bytes[1]]),
            wait,
            stream,
            function: bytes[3],
            last,
            number: u16::from_be_bytes([number_high, bytes[5]]),
            system: u32::from_be_bytes([bytes[6], bytes[7], bytes[8], bytes[9]]),
        }
    }
}

// A byte whose highest bit is `flag`, above a number of seven bits.
fn with_flag(flag: bool, low: u8) -> u8
    requires { low < 128 }
    ensures { result ≡ flag_byte flag low }
{
    if flag { low | 0x80 } else { low }
}

// The highest bit of a byte, and the number in the seven below it.
fn split_flag(byte: u8) -> (bool, u8)
    ensures low { result.1 < 128 }
    ensures whole { flag_byte result.0 result.1 ≡ byte }
{
    (byte & 0x80 != 0, byte & 0x7f)
}
