// What one line of a map states, and the order of such lines.
ghost use Rattle.std.specs.Prelude.{◌≡◌};
ghost use Rattle.map_file.specs.Entries.{section_after};

use crate::maps::{MapEvent, MapSample, MapState, Range};

/// The numbers of a map's last line: the greatest depth of the return stack, in places, the bytes of general RAM,
/// the words of the image, and the steps in which the firmware settles.
#[derive(Clone, Copy, Debug)]
pub struct Report {
    pub depth: u8,
    pub ram: u16,
    pub words: u16,
    pub settle: u32,
}

/// What one line of a map states.
#[derive(Debug, Drop)]
pub enum Entry {
    /// The kind of the text and its version.
    Head,
    Event(MapEvent),
    State(MapState),
    /// A port's number, 0 to 4.
    Output(u8),
    Sample(MapSample),
    /// The ready address, in words.
    Ready(u16),
    Regs(Range),
    Report(Report),
}

/// Where in a map's text a line stands, by the kinds of lines that may follow it.
#[derive(Clone, Copy, Debug, PartialEq, Eq)]
pub enum Section {
    /// Before the first line.
    Start,
    Events,
    States,
    Outputs,
    Samples,
    /// The ready address has been given.
    Registers,
    /// After the report.
    End,
}

impl Section {
    /// The section that the entry belongs to, and None exactly where it can't stand after this section's.
    pub fn after(self, entry: &Entry) -> Option<Section>
        ensures { result ≡ section_after self entry.now }
    {
        match (self, entry) {
            (Section::Start, Entry::Head) => Some(Section::Events),
            (Section::Events, Entry::Event(_)) => Some(Section::Events),
            (Section::Events | Section::States, Entry::State(_)) => Some(Section::States),
            (Section::Events | Section::States | Section::Outputs, Entry::Output(_)) => {
                Some(Section::Outputs)
            }
            (
                Section::Events | Section::States | Section::Outputs | Section::Samples,
                Entry::Sample(_),
            ) => Some(Section::Samples),
            (
                Section::Events | Section::States | Section::Outputs | Section::Samples,
                Entry::Ready(_),
            ) => Some(Section::Registers),
            (Section::Registers, Entry::Regs(_)) => Some(Section::Registers),
            (Section::Registers, Entry::Report(_)) => Some(Section::End),
            _ => None,
        }
    }
}
