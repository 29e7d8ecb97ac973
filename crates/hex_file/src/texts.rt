// The bytes that the digits of a line spell.
ghost use Rattle.std.specs.Prelude.{◌≡◌, IfOk, IsTrue};
ghost use Rattle.std.specs.List.{list_all};
ghost use Rattle.text_parts.specs.Bytes.{is_hex_digit};
ghost use Rattle.hex_file.specs.Faults.{spelled_bytes};

use std::alloc::{AllocError, Global};
use text_parts::digit_value;

/// The bytes that digits spell, two digits each. A last digit of an odd number spells nothing. An `Err` is out
/// of memory.
pub fn spelled(alloc: Global, digits: &[u8]) -> Result<Vec<u8>, AllocError>
    requires { IsTrue (list_all is_hex_digit digits.now) }
    ensures { IfOk result (λ bytes. bytes.items ≡ spelled_bytes digits.now) }
{
    let mut bytes = Vec::new(alloc);
    let mut rest = digits;
    while let [high, low, more @ ..] = rest {
        bytes.push(16 * digit_value(*high) + digit_value(*low))?;
        rest = more;
    }
    Ok(bytes)
}
