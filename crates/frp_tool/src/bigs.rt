// The command `big`.
ghost use Rattle.std.specs.Prelude.{ℕ, ◌<◌, ◌^◌, ◌≡◌, ◌≢◌, ◌++◌, IfOk, OnOk, string_bytes};
ghost use Rattle.frp_tree.specs.Tree.{program_tree_of};
ghost use Rattle.map_file.specs.MapRules.{IsMap};
ghost use Rattle.firmware_map.specs.Laws.{HasNames};
ghost use Rattle.firmware.specs.Builds.{IsBuilt};
ghost use Rattle.pic_regs.specs.State.{registers_of};
ghost use Rattle.large_program.specs.LargePrograms.{large_program};
ghost use Rattle.frp_tool.specs.Bigs.{AreBigTexts, BigWorks, OrMemory, big_text, tally_text};

use crate::fault_lines::build_line;
use crate::source::program_in;
use crate::writes::store;
use arrival_script::end_with_states;
use causality::Checked;
use command_parts::{Halt, REFUSED};
use edge_io::Files;
use efrp_syntax::print;
use firmware::Built;
use frp_tree::{List as Bytes, Text};
use large_program::large_program;
use large_run::{Tally, large_reacts, large_run};
use map_file::Map;
use std::alloc::{AllocError, Global};
use std::fmt::Write;

// The large program of a number, printed and read again.
fn program_of(alloc: Global, number: u32) -> Result<Checked, Halt>
    ensures { OrMemory (λ checked. (program_tree_of checked.typed.program ≡ large_program number) × HasNames (program_tree_of checked.typed.program)) result }
{
    let program = large_program(alloc, number)?;
    let text = print(alloc, &program)?;
    program_in(alloc, text.as_slice())
}

// What is built of it. No number's program has a fault.
fn built_of(alloc: Global, number: u32) -> Result<Built, Halt>
    ensures { OrMemory (IsBuilt (large_program number)) result }
{
    let checked = program_of(alloc, number)?;
    match firmware::compile(alloc, &checked) {
        Ok(built) => Ok(built),
        Err(fault) => Err(Halt::Said {
            status: REFUSED,
            line: build_line(alloc, fault)?,
        }),
    }
}

// Adds the first line, and the word that begins the second.
fn add_tally(text: &mut String, number: u32, map: &Map, tally: &Tally) -> Result<(), AllocError>
    ensures { OnOk result (string_bytes text.new ≡ string_bytes text.old ++ tally_text number map.now tally.now) }
{
    let latched = tally.latched;
    let merged = tally.merged;
    let commits = tally.commits;
    let deepest = tally.deepest;
    let words = map.words;
    let ram = map.ram;
    write!(
        text,
        "big {number} latched {latched} merged {merged} commits {commits}"
    )?;
    write!(text, " deepest {deepest} words {words} ram {ram}\nend")
}

// Both lines, of the run of an image.
fn big_text(alloc: Global, number: u32, built: &Built) -> Result<String, AllocError>
    requires { IsBuilt (large_program number) built.now }
    ensures { IfOk result (λ text. string_bytes text ≡ big_text number built.now.image built.now.map) }
{
    let ran = large_run(alloc, number, &built.image, &built.map)?;
    let mut text = String::new(alloc);
    add_tally(&mut text, number, &built.map, &ran.tally)?;
    end_with_states(&mut text, ran.chip.regs(), &built.map)?;
    Ok(text)
}

// What `big` writes and puts.
#[derive(Debug, Drop)]
struct BigTexts {
    hex: Bytes<u8>,
    map: Bytes<u8>,
    lines: String,
}

// The texts of what is built of a number's program.
fn big_texts_of(alloc: Global, number: u32, built: &Built) -> Result<BigTexts, AllocError>
    requires { IsBuilt (large_program number) built.now }
    ensures { IfOk result (λ texts. AreBigTexts number texts.hex texts.map (string_bytes texts.lines)) }
{
    large_reacts();
    Ok(BigTexts {
        hex: hex_file::write(alloc, &built.image)?,
        map: map_file::write(alloc, &built.map)?,
        lines: big_text(alloc, number, built)?,
    })
}

// The texts of a number.
fn big_texts(alloc: Global, number: u32) -> Result<BigTexts, Halt>
    ensures { OrMemory (λ texts. AreBigTexts number texts.hex texts.map (string_bytes texts.lines)) result }
{
    let built = built_of(alloc, number)?;
    Ok(big_texts_of(alloc, number, &built)?)
}

/// The work of `big N HEX MAP`: makes the large program of a number and builds it, runs its image, writes HEX and MAP, and gives
/// the two lines of the run. It reads no file, and no number is refused.
pub fn big<F: Files>(
    alloc: Global,
    number: u32,
    hex: &Text,
    map: &Text,
    files: &mut F,
) -> Result<Option<String>, Halt>
    requires { hex.now ≢ map.now }
    ensures { BigWorks (record { number = number; hex = hex.now; map = map.now }) (F.seen files.old) (F.seen files.new) result }
{
    let texts = big_texts(alloc, number)?;
    store(alloc, hex, texts.hex.as_slice(), files)?;
    store(alloc, map, texts.map.as_slice(), files)?;
    Ok(Some(texts.lines))
}
