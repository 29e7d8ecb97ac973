// A place for each byte.

ghost use Rattle.std.specs.Prelude.{◌≡◌, ℕ, ◌<◌, ◌≤◌, ◌^◌, ◌↔◌, IfOk, IfErr, IsOk, Err};
ghost use Rattle.bank_alloc.specs.declared.needs.RamFault.TheVariants.{Ram};
ghost use Rattle.bank_alloc.specs.Needs.{bytes_of};
ghost use Rattle.bank_alloc.specs.Addresses.{address_of, banked_byte, place_of};

use crate::needs::{BYTES_OF_A_LEVEL, Needs, RamFault, bytes_needed};

/// Places for bytes that fit into the chip's banked memory.
#[derive(Clone, Copy, Debug, PartialEq, Eq)]
pub struct Places {
    need: Needs,
    ghost fits: { bytes_of need ≤ 352 },
}

/// The banked general bytes of the chip (data sheet DS30292, "Register File Map").
const BANKED_BYTES: u32 = 352;

/// Places for the bytes that are needed, which together are below 2^32. `Ram(n)` comes exactly where they are more than 352, n
/// being their number. Takes no memory.
pub fn place(need: &Needs) -> Result<Places, RamFault>
    requires { bytes_of need.now < 2 ^ 32 }
    ensures fits { IsOk result ↔ (bytes_of need.now ≤ 352) }
    ensures ok { IfOk result (λ places. places.need ≡ need.now) }
    ensures ram { IfErr result (λ fault. fault ≡ Ram (bytes_of need.now)) }
{
    let bytes = bytes_needed(need);
    if bytes > BANKED_BYTES {
        return Err(RamFault::Ram(bytes));
    }
    Ok(Places { need: *need })
}

// The address of the k-th banked general byte, from 0 on.
fn banked_byte(k: u16) -> u16
    requires { k < 352 }
    ensures { result ≡ banked_byte k }
{
    if k < 80 {
        0x20 + k
    } else if k < 160 {
        0xA0 + (k - 80)
    } else if k < 256 {
        0x110 + (k - 160)
    } else {
        0x190 + (k - 256)
    }
}

impl Places {
    /// The address, below 512, of the byte with this number. It is one of those that are needed. Takes no memory.
    pub fn address(&self, cell: u32) -> u16
        requires { cell < bytes_of self.now.need }
        ensures { result ≡ address_of self.now.need cell }
    {
        let saved = BYTES_OF_A_LEVEL * u32::from(self.need.levels);
        let others = self.need.states + self.need.scratch;
        let place = if cell < others {
            saved + cell
        } else {
            cell - others
        };
        banked_byte(place as u16)
    }

    /// The bytes that were placed. Takes no memory.
    pub fn needs(&self) -> &Needs
        ensures { result.now ≡ self.now.need }
    {
        &self.need
    }
}
