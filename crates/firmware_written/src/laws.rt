// The law on what is written. It is the contract of a function that does nothing.
ghost use Rattle.map_file.specs.declared.maps.Map.{Map as AnyMap};
ghost use Rattle.page_layout.specs.declared.laid.Laid.{Laid as AnyLaid};
ghost use Rattle.firmware_layout.specs.Pieces.{Makings};
ghost use Rattle.firmware_written.specs.Written.{WrittenIsFirmware};

/// The image of firmware's code as it is laid out, and the map of it, can be written. Their bytes are firmware for the program, and
/// treat its events in time and in order.
pub fn written_is_firmware()
    ensures { (f : Makings) (laid : AnyLaid) (m : AnyMap) → WrittenIsFirmware f laid m }
{}
