//! The map of firmware, for any program without inputs, and which registers the firmware may write.
//!
//! `specs/Written.antt` says which registers these are (`is_written`), `specs/Maps.antt` what the map is, field by field
//! (`IsMapOf`). That such a map lists and names rightly is the contract of functions with empty bodies.
#![tactic(auto)]

mod laws;
mod maps;
mod ranges;
mod uses;

pub use laws::{
    frames_are_placed, map_keeps_rules, map_lists_rightly, map_lists_written, map_names_items,
    map_reports_few,
};
pub use maps::map_of;
pub use uses::Uses;
