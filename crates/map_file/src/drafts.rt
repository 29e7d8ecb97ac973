// The draft of a map, while its lines are read.
use crate::entries::Section;
use crate::maps::Map;

/// What the lines read so far state: the section of the last of them, their map, whose further numbers are 0, and
/// the lowest data address that the next range may begin with.
#[derive(Debug, Drop)]
pub struct Draft {
    pub section: Section,
    pub map: Map,
    pub lowest: u16,
}
