// The texts of replies, piece by piece.
ghost use Rattle.std.specs.Prelude.{◌≡◌, ◌++◌, IfOk};
ghost use Rattle.std.specs.Fmt.{decimal};

use std::alloc::{AllocError, Global};

/// The octets, and then the text.
pub fn with_text(mut octets: Vec<u8>, text: &[u8]) -> Result<Vec<u8>, AllocError>
    ensures { IfOk result (λ all. all.items ≡ octets.items ++ text.now) }
{
    octets.extend_from_slice(text)?;
    Ok(octets)
}

/// The octets, and then the number in decimal.
pub fn with_number(octets: Vec<u8>, alloc: Global, number: u128) -> Result<Vec<u8>, AllocError>
    ensures { IfOk result (λ all. all.items ≡ octets.items ++ decimal number) }
{
    with_text(octets, number.to_string(alloc)?.as_bytes())
}
