// The marks of firmware, by number. Those of an event are by its number in declaration order, 0 to 10.
ghost use Rattle.std.specs.Prelude.{◌≡◌, ◌≤◌};
ghost use Rattle.glue_parts.specs.Marks.{Again, Committing, Entry, Lock, Opening, mark};

/// The ready address.
pub const READY: u32 = 48;

/// Where the boot goes on behind its first instructions.
pub const BOOT: u32 = 49;

/// The start of an event's run, where its dispatch leads.
pub fn entry(event: u8) -> u32
    ensures { result ≡ mark (Entry event) }
{
    u32::from(event)
}

/// The instruction of an event's run that opens its window.
pub fn opening(event: u8) -> u32
    ensures { result ≡ mark (Opening event) }
{
    16 + u32::from(event)
}

/// The instruction of an event's run that commits.
pub fn committing(event: u8) -> u32
    ensures { result ≡ mark (Committing event) }
{
    32 + u32::from(event)
}

/// Where an event's run begins again.
pub fn again(event: u8) -> u32
    ensures { result ≡ mark (Again event) }
{
    64 + u32::from(event)
}

/// The lock of an event's run.
pub fn lock(event: u8) -> u32
    ensures { result ≡ mark (Lock event) }
{
    80 + u32::from(event)
}
