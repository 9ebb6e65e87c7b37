//! A length in four octets, the high octets first.
ghost use Rattle.std.specs.Prelude.{◌≡◌};
ghost use Rattle.std.specs.Int.{to_be_bytes, w32};

use byteorder::{BigEndian, ByteOrder};

/// The four octets of a length.
pub(crate) fn octets_of(size: u32) -> [u8; 4]
    ensures { result ≡ to_be_bytes w32 size }
{
    let mut octets = [0; 4];
    BigEndian::write_u32(&mut octets, size);
    octets
}

/// The length that has these four octets.
pub(crate) fn size_of(octets: [u8; 4]) -> u32
    ensures { to_be_bytes w32 result ≡ octets }
{
    BigEndian::read_u32(&octets)
}
