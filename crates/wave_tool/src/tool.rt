// The one public call: it puts the waves of a run.
ghost use Rattle.std.specs.Prelude.{◌≡◌};
ghost use Rattle.std.specs.Option.{option_map};
ghost use Rattle.edge_io.specs.Files.{KeepsFiles};
ghost use Rattle.hex_file.specs.Written.{IsWritable};
ghost use Rattle.map_file.specs.MapRules.{IsMap};
ghost use Rattle.arrival_script.specs.Scripts.{IsScript};
ghost use Rattle.wave_tool.specs.Asking.{asked_by, words_in};
ghost use Rattle.wave_tool.specs.Promises.{Draws, Promises, PromisesOf, Works};

use command_parts::{Halt, NO_COMMAND, REFUSED, finish, say};
use edge_io::{Files, Sink};
use frp_tree::Text;
use run_inputs::{Parts, read_parts, stop_line};
use std::alloc::Global;
use wave_text::{WaveFault, draw};

/// What is put where the words aren't the names of a HEX file, a map and a script.
const USAGE: &str = "usage: efrp_wave HEX MAP SCRIPT\n";

/// The names of the three files.
#[derive(Clone, Copy, Debug)]
pub struct Names<N> {
    pub hex: N,
    pub map: N,
    pub script: N,
}

// What three words ask for.
fn names_in<'a>(words: &'a [Text]) -> Option<Names<&'a Text>>
    ensures { option_map words_in result ≡ asked_by words.now }
{
    match words {
        [hex, map, script] => Some(Names { hex, map, script }),
        _ => None,
    }
}

// The waves of the run of what the files mean.
fn drawn(alloc: Global, parts: &Parts) -> Result<Option<String>, Halt>
    requires writable { IsWritable parts.now.image }
    requires rules { IsMap parts.now.map }
    requires script { IsScript parts.now.script }
    ensures { Draws parts.now result }
{
    match draw(alloc, &parts.image, &parts.map, &parts.script) {
        Ok(text) => Ok(Some(text)),
        Err(WaveFault::Stopped { step, address, why }) => Err(Halt::Said {
            status: REFUSED,
            line: stop_line(alloc, step, address, why)?,
        }),
        Err(WaveFault::Memory) => Err(Halt::Memory),
    }
}

// The waves of the run that three files tell, or why there are none.
fn waves<F: Files>(
    alloc: Global,
    hex: &Text,
    map: &Text,
    script: &Text,
    files: &mut F,
) -> Result<Option<String>, Halt>
    ensures works { Works (record { hex = hex.now; map = map.now; script = script.now }) (F.seen files.old) (F.seen files.new) result }
    ensures unchanged { KeepsFiles (F.seen files.old) (F.seen files.new) }
{
    let parts = read_parts(alloc, hex, map, script, files)?;
    drawn(alloc, &parts)
}

// Puts the waves, and answers a status.
fn tell<F: Files, S: Sink>(
    alloc: Global,
    hex: &Text,
    map: &Text,
    script: &Text,
    files: &mut F,
    out: &mut S,
) -> u8
    ensures { Promises (record { hex = hex.now; map = map.now; script = script.now }) (record { files = F.seen files.old; out = S.seen out.old }) (record { files = F.seen files.new; out = S.seen out.new }) result }
{
    let work = waves(alloc, hex, map, script, files);
    finish(alloc, out, work)
}

/// Puts the waves of the run that a HEX file, a map and a script tell, as a value change dump, and answers a status. The words are the
/// names of the three: those of a command line without the program's name. 0: the waves were put; 1: a file's fault, or the chip's stop
/// was told, with the line that `efrp run` has for it; 2: the words are others, and the usage line was put; 3: a file isn't there;
/// 4: it wasn't read; 5: what was to be put wasn't; 6: memory ran out.
pub fn efrp_wave<F: Files, S: Sink>(alloc: Global, words: &[Text], files: &mut F, out: &mut S) -> u8
    ensures { PromisesOf (asked_by words.now) (record { files = F.seen files.old; out = S.seen out.old }) (record { files = F.seen files.new; out = S.seen out.new }) result }
{
    match names_in(words) {
        Some(names) => tell(alloc, names.hex, names.map, names.script, files, out),
        None => say(alloc, out, NO_COMMAND, USAGE.as_bytes()),
    }
}
