// Laws on files and their images. Each is the contract of a function that does nothing.
ghost use Rattle.std.specs.Prelude.{◌≡◌, ℕ, [], List};
ghost use Rattle.hex_file.specs.Faults.{FirstFault};
ghost use Rattle.hex_file.specs.ImageOf.{IsImageOf};
ghost use Rattle.hex_file.specs.Written.{IsWritable, written};
ghost use Rattle.hex_file.specs.declared.faults.HexFault.{HexFault as Faults};
ghost use Rattle.hex_file.specs.declared.images.Image.{Image as Images};

/// A file means at most one image.
pub fn one_image()
    ensures { (bytes : List ℕ) (some other : Images) → IsImageOf bytes some → IsImageOf bytes other → some ≡ other }
{}

/// A file that has a fault has no image.
pub fn faulty_has_no_image()
    ensures { (bytes : List ℕ) (fault : Faults) (image : Images) → FirstFault bytes fault → IsImageOf bytes image → ⊥ }
{}

/// The written form of an image without bytes aside means that image. So `read` of what `write` gives is the
/// image, where memory suffices.
pub fn written_is_read()
    ensures { (image : Images) → IsWritable image → image.aside ≡ [] → IsImageOf (written image) image }
{}
