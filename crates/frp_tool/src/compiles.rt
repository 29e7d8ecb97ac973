// The command `compile`.
ghost use Rattle.std.specs.Prelude.{◌≡◌, ◌≢◌, ◌++◌, IfOk, OnOk, string_bytes, codes};
ghost use Rattle.std.specs.Fmt.{decimal};
ghost use Rattle.frp_tree.specs.Tree.{program_tree_of};
ghost use Rattle.firmware_map.specs.Laws.{HasNames};
ghost use Rattle.firmware.specs.Builds.{IsBuildFault, IsBuilt};
ghost use Rattle.command_parts.specs.Endings.{Gives};
ghost use Rattle.frp_tool.specs.Compiles.{AreTexts, CompileWorks};
ghost use Rattle.frp_tool.specs.Lines.{build_line, summary_of};

use crate::fault_lines::build_line;
use crate::source::read_source;
use crate::writes::store;
use causality::Checked;
use command_parts::{Halt, REFUSED};
use edge_io::Files;
use firmware::Built;
use frp_tree::{List as Bytes, Text};
use map_file::Map;
use program_bounds::{Bounds, bounds_of};
use std::alloc::{AllocError, Global};
use std::fmt::Write;

/// The levels of interrupts that the chip's return stack has room for.
const MOST_LEVELS: u32 = 8;

// What `compile` writes and puts.
#[derive(Debug, Drop)]
struct Texts {
    hex: Bytes<u8>,
    map: Bytes<u8>,
    summary: String,
}

// Adds a number and its bound.
fn add_bounded(text: &mut String, words: &str, number: u32, most: u32) -> Result<(), AllocError>
    ensures { OnOk result (string_bytes text.new ≡ string_bytes text.old ++ (words.now ++ (decimal number ++ (codes " of " ++ decimal most)))) }
{
    write!(text, "{words}{number} of {most}")
}

fn summary_line(alloc: Global, map: &Map, bounds: Bounds) -> Result<String, AllocError>
    ensures { IfOk result (λ line. string_bytes line ≡ summary_of map.now bounds.words bounds.ram bounds.settle) }
{
    let mut text = String::new(alloc);
    add_bounded(&mut text, "words ", u32::from(map.words), bounds.words)?;
    add_bounded(&mut text, " ram ", u32::from(map.ram), bounds.ram)?;
    add_bounded(&mut text, " depth ", u32::from(map.depth), MOST_LEVELS)?;
    add_bounded(&mut text, " settle ", map.settle, bounds.settle)?;
    text.push_str("\n")?;
    Ok(text)
}

// The bytes of both files and the summary, from what was built of a program.
fn texts_of(alloc: Global, c: &Checked, built: &Built) -> Result<Texts, AllocError>
    requires { IsBuilt (program_tree_of c.now.typed.program) built.now }
    ensures { IfOk result (λ texts. AreTexts (program_tree_of c.now.typed.program) texts.hex texts.map (string_bytes texts.summary)) }
{
    let bounds = bounds_of(alloc, c)?;
    Ok(Texts {
        hex: hex_file::write(alloc, &built.image)?,
        map: map_file::write(alloc, &built.map)?,
        summary: summary_line(alloc, &built.map, bounds)?,
    })
}

// What is made of a program, or why nothing is built of it.
fn texts_in(alloc: Global, c: &Checked) -> Result<Texts, Halt>
    requires { HasNames (program_tree_of c.now.typed.program) }
    ensures { Gives (λ texts. AreTexts (program_tree_of c.now.typed.program) texts.hex texts.map (string_bytes texts.summary)) (IsBuildFault (program_tree_of c.now.typed.program)) (λ fault. 1) build_line result }
{
    match firmware::compile(alloc, c) {
        Ok(built) => Ok(texts_of(alloc, c, &built)?),
        Err(fault) => Err(Halt::Said {
            status: REFUSED,
            line: build_line(alloc, fault)?,
        }),
    }
}

/// The work of `compile SRC HEX MAP`: reads SRC, writes HEX and MAP, and gives the summary of the map.
pub fn compile<F: Files>(
    alloc: Global,
    source: &Text,
    hex: &Text,
    map: &Text,
    files: &mut F,
) -> Result<Option<String>, Halt>
    requires { hex.now ≢ map.now }
    ensures { CompileWorks (record { source = source.now; hex = hex.now; map = map.now }) (F.seen files.old) (F.seen files.new) result }
{
    let checked = read_source(alloc, source, files)?;
    let texts = texts_in(alloc, &checked)?;
    store(alloc, hex, texts.hex.as_slice(), files)?;
    store(alloc, map, texts.map.as_slice(), files)?;
    Ok(Some(texts.summary))
}
