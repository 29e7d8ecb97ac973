// The registers that firmware may write, as ranges, and how many of them are banked bytes.
ghost use Rattle.std.specs.Prelude.{◌≡◌, ℕ, ◌+◌, ◌<◌, ◌≤◌, ◌&&◌, nat_lt, Bool, true, [], ◌∷◌, ◌++◌, IfOk, OnOk};
ghost use Rattle.map_file.specs.MapRules.{RangesRise};
ghost use Rattle.bank_alloc.specs.Needs.{bytes_of};
ghost use Rattle.firmware_promises.specs.MapNames.{is_in};
ghost use Rattle.firmware_promises.specs.Firmware.{count_below, is_banked as banked};
ghost use Rattle.firmware_map.specs.Ranges.{EndBelow, HoldBelow};
ghost use Rattle.firmware_map.specs.Written.{is_written, program_of, used_by};

use crate::uses::Uses;
use frp_tree::List;
use map_file::Range;
use std::alloc::{AllocError, Global};

/// The data addresses, from 0 on.
const ADDRESSES: u16 = 512;

// Whether the address is that of a banked general byte.
fn is_banked(address: u16) -> bool
    ensures { result ≡ banked address }
{
    matches!(
        address,
        0x020..=0x06F | 0x0A0..=0x0EF | 0x110..=0x16F | 0x190..=0x1EF
    )
}

fn push_range(ranges: &mut Vec<Range>, from: u16, to: u16) -> Result<(), AllocError>
    ensures { OnOk result (ranges.new.items ≡ ranges.old.items ++ record { from = from; to = to } ∷ []) }
{
    ranges.push(Range { from, to })?;
    Ok(())
}

// Adds an address above all of the ranges.
fn add_address(ranges: &mut Vec<Range>, address: u16) -> Result<(), AllocError>
    requires below { address < 512 }
    requires above { EndBelow address ranges.old.items }
    ensures { OnOk result ((test : ℕ → Bool) → HoldBelow address test ranges.old.items → test address ≡ true → HoldBelow (address + 1) test ranges.new.items) }
{
    let Some(last) = ranges.pop() else {
        return push_range(ranges, address, address);
    };
    if last.to + 1 == address {
        return push_range(ranges, last.from, address);
    }
    push_range(ranges, last.from, last.to)?;
    push_range(ranges, address, address)
}

impl Uses<'_> {
    /// The registers that the firmware may write, as ranges that rise and don't touch. An `Err` is out of memory.
    pub fn ranges(&self, alloc: Global) -> Result<List<Range>, AllocError>
        requires { self.now.cells ≤ bytes_of self.now.places.now.need }
        ensures rise { IfOk result (RangesRise 0) }
        ensures written { IfOk result (λ ranges. (a : ℕ) → is_in ranges a ≡ (nat_lt a 512 && is_written (program_of self.now) (used_by self.now) a)) }
    {
        let mut ranges = Vec::new(alloc);
        for address in 0..ADDRESSES {
            if self.is_written(address) {
                add_address(&mut ranges, address)?;
            }
        }
        Ok(List::from_vec(ranges))
    }

    /// How many of them are banked general bytes. Takes no memory.
    pub fn banked_bytes(&self) -> u16
        requires { self.now.cells ≤ bytes_of self.now.places.now.need }
        ensures { result ≡ count_below 512 (λ a. is_written (program_of self.now) (used_by self.now) a && banked a) }
    {
        let mut count = 0;
        for address in 0..ADDRESSES {
            if self.is_written(address) && is_banked(address) {
                count += 1;
            }
        }
        count
    }
}
