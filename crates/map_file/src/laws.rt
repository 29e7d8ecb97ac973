// A law of maps and their texts.
ghost use Rattle.std.specs.Prelude.{◌≡◌};
ghost use Rattle.map_file.specs.declared.maps.Map.{Map as Maps};
ghost use Rattle.map_file.specs.MapRules.{IsMap};
ghost use Rattle.map_file.specs.MapText.{map_text};

/// A text is the text of one map at most. So what `read` makes of the bytes that `write` gave is the map that was
/// written.
pub fn one_map()
    ensures { (m n : Maps) → IsMap m → IsMap n → map_text m ≡ map_text n → m ≡ n }
{}
