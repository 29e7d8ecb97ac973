// What the three files of a `run` mean.
ghost use Rattle.std.specs.Prelude.{◌≡◌, ◌≤◌, Some, length};
ghost use Rattle.edge_io.specs.declared.outside.TheConstants.{LONGEST_FILE};
ghost use Rattle.edge_io.specs.Files.{KeepsFiles};
ghost use Rattle.hex_file.specs.ImageOf.{IsImageOf};
ghost use Rattle.hex_file.specs.Faults as hex;
ghost use Rattle.map_file.specs.MapFaults.{FirstFaulty};
ghost use Rattle.map_file.specs.MapRules.{IsMap};
ghost use Rattle.map_file.specs.MapText.{map_text};
ghost use Rattle.arrival_script.specs.Scripts.{first_fault};
ghost use Rattle.run_inputs.specs.RunLines.{hex_line, map_line, script_line};
ghost use Rattle.command_parts.specs.Endings.{Gives};
ghost use Rattle.run_inputs.specs.RunFaults.{
  AreInputs,
  AreShort,
  AreParts,
  ArePartsOf,
  IsScriptIn,
  FaultCause,
  IsFirstFault,
  fault_status,
  fault_line,
};

use crate::fault_lines::{hex_line, map_line, script_line};
use arrival_script::{Script, ScriptFault};
use command_parts::{Halt, REFUSED, input};
use edge_io::Files;
use frp_tree::{List as Bytes, Text};
use hex_file::Image;
use map_file::{Map, MapFault};
use std::alloc::Global;

/// The bytes of the three files that `run` reads.
#[derive(Debug, Drop)]
pub struct Inputs {
    pub hex: Bytes<u8>,
    pub map: Bytes<u8>,
    pub script: Bytes<u8>,
}

/// What these bytes mean.
#[derive(Debug, Drop)]
pub struct Parts {
    pub image: Image,
    pub map: Map,
    pub script: Script,
}

// The bytes of the three files, read in order.
fn read_inputs<F: Files>(
    alloc: Global,
    hex: &Text,
    map: &Text,
    script: &Text,
    files: &mut F,
) -> Result<Inputs, Halt>
    ensures gives { Gives (AreInputs (record { hex = hex.now; map = map.now; script = script.now }) (F.seen files.old))
        (FaultCause (record { hex = hex.now; map = map.now; script = script.now }) (F.seen files.old) (F.seen files.new)) fault_status fault_line result }
    ensures unchanged { KeepsFiles (F.seen files.old) (F.seen files.new) }
{
    Ok(Inputs {
        hex: input(alloc, hex, files)?,
        map: input(alloc, map, files)?,
        script: input(alloc, script, files)?,
    })
}

// The image that the bytes of a HEX file mean.
fn image_in(alloc: Global, bytes: &Bytes<u8>) -> Result<Image, Halt>
    requires { length bytes.now ≤ LONGEST_FILE }
    ensures { Gives (IsImageOf bytes.now) (hex.FirstFault bytes.now) (λ fault. 1) hex_line result }
{
    match hex_file::read(alloc, bytes.as_slice()) {
        Ok(image) => Ok(image),
        Err(fault) => Err(Halt::Said {
            status: REFUSED,
            line: hex_line(alloc, fault)?,
        }),
    }
}

// The map whose text bytes are.
fn map_in(alloc: Global, bytes: &Bytes<u8>) -> Result<Map, Halt>
    requires { length bytes.now ≤ LONGEST_FILE }
    ensures { Gives (λ map. IsMap map × (bytes.now ≡ map_text map)) (FirstFaulty bytes.now) (λ n. 1) map_line result }
{
    match map_file::read(alloc, bytes.as_slice()) {
        Ok(map) => Ok(map),
        Err(MapFault::Line(line)) => Err(Halt::Said {
            status: REFUSED,
            line: map_line(alloc, line)?,
        }),
        Err(MapFault::Memory) => Err(Halt::Memory),
    }
}

// The script that a text states.
fn script_in(alloc: Global, bytes: &Bytes<u8>) -> Result<Script, Halt>
    requires { length bytes.now ≤ LONGEST_FILE }
    ensures { Gives (IsScriptIn bytes.now) (λ fault. first_fault bytes.now ≡ Some fault) (λ fault. 1) (λ fault. script_line fault.line fault.cause) result }
{
    match arrival_script::read_script(alloc, bytes.as_slice()) {
        Ok(script) => Ok(script),
        Err(ScriptFault::Line { line, cause }) => Err(Halt::Said {
            status: REFUSED,
            line: script_line(alloc, line, cause)?,
        }),
        Err(ScriptFault::Memory) => Err(Halt::Memory),
    }
}

// What the bytes of the three files mean, the HEX first, then the map, then the script.
fn parts_in(alloc: Global, inputs: &Inputs) -> Result<Parts, Halt>
    requires { AreShort inputs.now }
    ensures { Gives (AreParts inputs.now) (IsFirstFault inputs.now) fault_status fault_line result }
{
    Ok(Parts {
        image: image_in(alloc, &inputs.hex)?,
        map: map_in(alloc, &inputs.map)?,
        script: script_in(alloc, &inputs.script)?,
    })
}

/// What the three files of a `run` mean, or why there is no run.
pub fn read_parts<F: Files>(
    alloc: Global,
    hex: &Text,
    map: &Text,
    script: &Text,
    files: &mut F,
) -> Result<Parts, Halt>
    ensures gives { Gives (ArePartsOf (record { hex = hex.now; map = map.now; script = script.now }) (F.seen files.old))
        (FaultCause (record { hex = hex.now; map = map.now; script = script.now }) (F.seen files.old) (F.seen files.new)) fault_status fault_line result }
    ensures unchanged { KeepsFiles (F.seen files.old) (F.seen files.new) }
{
    let inputs = read_inputs(alloc, hex, map, script, files)?;
    parts_in(alloc, &inputs)
}
