// Laws on addresses. Each is the contract of a function that does nothing.

ghost use Rattle.std.specs.Prelude.{ℕ};
ghost use Rattle.bank_alloc.specs.declared.needs.Needs.{Needs as AnyNeeds};
ghost use Rattle.bank_alloc.specs.Laws.{AddressesAreGeneral, AddressesDiffer, GeneralIsPlain};

/// Where the bytes that are needed fit, two of them have two addresses.
pub fn addresses_differ()
    ensures { (need : AnyNeeds) → AddressesDiffer need }
{}

/// Where they fit, each address is that of a banked general byte, so none is in 70h to 7Fh.
pub fn addresses_are_general()
    ensures { (need : AnyNeeds) → AddressesAreGeneral need }
{}

/// A banked general byte is a plain byte of the register map, at this address.
pub fn general_is_plain()
    ensures { (address : ℕ) → GeneralIsPlain address }
{}
