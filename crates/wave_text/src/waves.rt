// The waves of an image's run under a script.
ghost use Rattle.std.specs.Prelude.{◌≡◌, ◌+◌, ◌==◌, ℕ, IfOk, OnOk, false, MatchOption};
ghost use Rattle.std.specs.List.{AllByRecursion};
ghost use Rattle.hex_file.specs.Written.{IsWritable};
ghost use Rattle.pic_machine.specs.Dids.{is_stop};
ghost use Rattle.pic_machine.specs.Run.{Log, run};
ghost use Rattle.pic_machine.specs.State.{chip_of};
ghost use Rattle.map_file.specs.declared.maps.Map.{Map as Maps};
ghost use Rattle.map_file.specs.MapRules.{IsMap};
ghost use Rattle.arrival_script.specs.Playing.{IsSeen};
ghost use Rattle.arrival_script.specs.Scripts.{IsScript};
ghost use Rattle.arrival_script.specs.Trace.{outers_of, start_of};
ghost use Rattle.wave_text.specs.Drawing.{Drawn};
ghost use Rattle.wave_text.specs.Signals.{HasPlace};
ghost use Rattle.wave_text.specs.Waves.{Draws};

use crate::changes::{write_changes, write_first, write_level_change, write_moment};
use crate::headers::write_header;
use crate::signals::{Signal, at_first, level_in, next_signals};
use arrival_script::{Player, Script, Seen};
use hex_file::Image;
use map_file::Map;
use pic_machine::{Chip, Did, Why};
use std::alloc::{AllocError, Global};

/// Why a run has no waves.
#[derive(Clone, Copy, Debug, PartialEq, Eq)]
pub enum WaveFault {
    /// The chip stopped at this step, at this address, in words.
    Stopped { step: u32, address: u16, why: Why },
    /// Out of memory.
    Memory,
}

impl From<AllocError> for WaveFault {
    ghost use Rattle.std.specs.Prelude.{◌≡◌};
    ghost use Rattle.wave_text.specs.declared.waves.WaveFault.TheVariants.{Memory};

    ghost from_gives = { λ _ fault. fault ≡ Memory };

    fn from(_error: AllocError) -> WaveFault {
        WaveFault::Memory
    }
}

/// The signals after the last step that was drawn, the level that runs, and the text so far.
#[derive(Drop)]
struct Wave {
    signals: Vec<Signal>,
    level: u8,
    text: String,
}

// Where and why a step stopped.
fn stop_of(did: Did) -> Option<(u16, Why)>
    ensures { MatchOption result (is_stop did ≡ false) (λ stop. did ≡ Did.Stopped stop.0 stop.1) }
{
    match did {
        Did::Stopped { address, why } => Some((address, why)),
        Did::Took | Did::Ran { .. } => None,
    }
}

impl Wave {
    // The header, and the signals of a chip at power-on.
    fn new(alloc: Global, map: &Map, chip: &Chip) -> Result<Wave, AllocError>
        requires { IsMap map.now }
        ensures { (log : Log) → (n : ℕ) → chip_of chip.now ≡ (log 0).before → IfOk result (λ wave. Drawn map.now log n 0 wave) }
    {
        let signals = at_first(alloc, map, chip)?;
        let level = level_in(signals.as_slice());
        let mut text = String::new(alloc);
        write_header(&mut text, map)?;
        write_first(&mut text, signals.as_slice(), level)?;
        Ok(Wave {
            signals,
            level,
            text,
        })
    }

    // Draws a step, by what was seen of it and the chip after it: what changed, at the time after it.
    fn draw(
        &mut self,
        alloc: Global,
        time: u32,
        last: bool,
        seen: &Seen,
        chip: &Chip,
    ) -> Result<(), AllocError>
        requires { AllByRecursion HasPlace self.old.signals.items }
        ensures { (m : Maps) → (log : Log) → (n k : ℕ) → time ≡ k + 1 → last ≡ (time == n) → IsSeen (log k) seen.now → chip_of chip.now ≡ (log k).after
            → Drawn m log n k self.old → OnOk result (Drawn m log n (k + 1) self.new) }
    {
        let now = next_signals(alloc, self.signals.as_slice(), seen, chip)?;
        let level = level_in(now.as_slice());
        let mut changes = String::new(alloc);
        write_changes(&mut changes, self.signals.as_slice(), now.as_slice())?;
        write_level_change(&mut changes, self.level, level)?;
        write_moment(&mut self.text, last, time, changes.as_str())?;
        self.signals = now;
        self.level = level;
        Ok(())
    }
}

/// The waves of an image's run under a script, as a value change dump: a header, each signal at power-on, and for each time, in
/// steps, those that changed. `Stopped` exactly where the chip stops within the script's steps.
pub fn draw(alloc: Global, image: &Image, map: &Map, script: &Script) -> Result<String, WaveFault>
    requires writable { IsWritable image.now }
    requires rules { IsMap map.now }
    requires script { IsScript script.now }
    ensures { Draws map.now (run image.now (start_of script.now) (outers_of script.now)) script.now.steps result }
{
    let mut player = Player::new(image, script);
    let mut wave = Wave::new(alloc, map, &player.chip)?;
    let mut step = 0;
    while step < script.steps {
        let seen = player.step(step);
        if let Some((address, why)) = stop_of(seen.did) {
            return Err(WaveFault::Stopped { step, address, why });
        }
        let last = step + 1 == script.steps;
        wave.draw(alloc, step + 1, last, &seen, &player.chip)?;
        step += 1;
    }
    Ok(wave.text)
}
