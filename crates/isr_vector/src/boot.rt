// The lines of the boot up to the one that turns interrupts on.
ghost use Rattle.std.specs.Prelude.{◌≡◌, ◌+◌, ◌*◌, ◌<◌, ◌≤◌, ◌++◌, ◌∷◌, [], ℕ, length, IfOk, OnOk};
ghost use Rattle.std.specs.List.{AllByRecursion, flat_map};
ghost use Rattle.frp_tree.specs.Tree.{program_tree_of};
ghost use Rattle.frp_tree.specs.declared.syntax.Setup.{Setup as AnySetup};
ghost use Rattle.frp_tree.specs.declared.syntax.Value.{Value as AnyValue};
ghost use Rattle.efrp_meaning.specs.Bounds.{state_bytes};
ghost use Rattle.efrp_meaning.specs.Values.{number_of};
ghost use Rattle.reaction_model.specs.Values.{type_of_value};
ghost use Rattle.bank_alloc.specs.Needs.{bytes_of};
ghost use Rattle.code_steps.specs.declared.banks.Bank.TheVariants.{Known};
ghost use Rattle.priority_masks.specs.declared.tables.Enables.{Enables as AnyEnables};
ghost use Rattle.priority_masks.specs.Levels.{AreLevelsOf};
ghost use Rattle.glue_parts.specs.Heard.{IsHeardAt};
ghost use Rattle.glue_parts.specs.Pieces.{Adds};
ghost use Rattle.isr_vector.specs.Booting.{bank_written, boot_lines as lines_of_boot, bytes_of_value, cell_writes, enable_line, enable_lines, filled, first_bytes as bytes_at_first, lines_of_writes, setup_writes};

use bank_alloc::Places;
use causality::Checked;
use code_steps::Bank;
use frp_tree::{Setup, Value};
use glue_parts::{Stretch, heard_at};
use glue_steps::Line;
use pic_isa::bits::{INTE, PEIE, T0IE};
use pic_isa::register_named;
use pic_regs::bytes::bit_is_set;
use pic_regs::{Place, place_at};
use priority_masks::{Enables, Levels};
use reaction_model::initial;
use std::alloc::{AllocError, Global};

/// The lines that stand before the address that interrupts lead to.
pub(crate) const FIRST_LINES: usize = 3;

// Adds the bytes of a value, the low one first.
fn add_bytes(bytes: &mut Vec<u8>, value: Value) -> Result<(), AllocError>
    ensures { OnOk result (bytes.new.items ≡ bytes.old.items ++ bytes_of_value (type_of_value value) (number_of value)) }
{
    match value {
        Value::Bool(truth) => bytes.push(u8::from(truth))?,
        Value::U8(n) => bytes.push(n)?,
        Value::U16(n) => {
            bytes.push((n % 256) as u8)?;
            bytes.push((n / 256) as u8)?;
        }
    }
    Ok(())
}

// The bytes of values, in order.
fn bytes_of(alloc: Global, values: &[Value]) -> Result<Vec<u8>, AllocError>
    ensures { IfOk result (λ bytes. bytes.items ≡ flat_map (λ (v : AnyValue). bytes_of_value (type_of_value v) (number_of v)) values.now) }
{
    let mut bytes = Vec::new(alloc);
    for value in values {
        add_bytes(&mut bytes, *value)?;
    }
    Ok(bytes)
}

// The first bytes of the states, by cell.
fn first_bytes(alloc: Global, c: &Checked) -> Result<Vec<u8>, AllocError>
    ensures { IfOk result (λ bytes. bytes.items ≡ bytes_at_first (program_tree_of c.now.typed.program)) }
{
    let state = initial(alloc, c)?;
    bytes_of(alloc, state.values.as_slice())
}

// Writes the first cells.
fn write_states(lines: &mut Stretch, places: &Places, bytes: &[u8]) -> Result<(), AllocError>
    requires { length bytes.now ≤ bytes_of places.now.need }
    ensures { OnOk result (Adds lines.old (lines_of_writes lines.old.bank (cell_writes places.now.need 0 bytes.now)) (bank_written lines.old.bank (cell_writes places.now.need 0 bytes.now)) lines.new) }
{
    for (cell, byte) in bytes.iter().enumerate() {
        lines.write(Place::Plain(places.address(cell as u32)), *byte)?;
    }
    Ok(())
}

fn write_setups(lines: &mut Stretch, setups: &[Setup]) -> Result<(), AllocError>
    requires { AllByRecursion (λ (s : AnySetup). s.byte < 256) setups.now }
    ensures { OnOk result (Adds lines.old (lines_of_writes lines.old.bank (setup_writes setups.now)) (bank_written lines.old.bank (setup_writes setups.now)) lines.new) }
{
    for setup in setups {
        if let Some(address) = register_named(setup.register.as_str()) {
            lines.write(place_at(address), setup.byte as u8)?;
        }
    }
    Ok(())
}

// Sets an enable in INTCON, where it is one of these.
fn write_enable(lines: &mut Stretch, all: &Enables, bit: u8) -> Result<(), AllocError>
    requires { bit < 8 }
    ensures { OnOk result (Adds lines.old (enable_line all.now bit) lines.old.bank lines.new) }
{
    if bit_is_set(all.intcon, bit) {
        lines.add(Line::Bit(true, Place::Intcon, bit))?;
    }
    Ok(())
}

// Sets these enables, of which none is set, and leaves bank 0 chosen.
fn write_enables(lines: &mut Stretch, all: &Enables) -> Result<(), AllocError>
    ensures { OnOk result (Adds lines.old (enable_lines lines.old.bank all.now) (Known 0) lines.new) }
{
    lines.change(Place::Pie1, all.pie1, all.pie1)?;
    lines.change(Place::Pie2, all.pie2, all.pie2)?;
    lines.choose(0)?;
    write_enable(lines, all, T0IE)?;
    write_enable(lines, all, INTE)?;
    write_enable(lines, all, PEIE)?;
    Ok(())
}

// Adds lines that do nothing, so that there are at least as many as stand before the address that interrupts lead to.
fn fill_up(lines: &mut Vec<Line>) -> Result<(), AllocError>
    ensures { OnOk result (lines.new.items ≡ filled lines.old.items) }
{
    let count = lines.len().max(FIRST_LINES);
    lines.resize(count, Line::Nothing)
}

// What the boot does from power-on before it turns interrupts on: the states, the setups in their order, and the enables of all
// events.
pub(crate) fn boot_lines(
    alloc: Global,
    c: &Checked,
    levels: &Levels,
    places: &Places,
) -> Result<Vec<Line>, AllocError>
    requires levels { AreLevelsOf (program_tree_of c.now.typed.program) levels.now }
    requires placed { state_bytes (program_tree_of c.now.typed.program) ≤ places.now.need.states }
    ensures { IfOk result (λ lines. (enables : AnyEnables) × IsHeardAt (program_tree_of c.now.typed.program) 0 enables × (lines.items ≡ lines_of_boot (program_tree_of c.now.typed.program) places.now.need enables)) }
{
    let bytes = first_bytes(alloc, c)?;
    let mut lines = Stretch::new(alloc, Bank::Known(0));
    write_states(&mut lines, places, &bytes)?;
    write_setups(&mut lines, c.typed().program().setups.as_slice())?;
    write_enables(&mut lines, &heard_at(levels, 0))?;
    let mut lines = lines.lines;
    fill_up(&mut lines)?;
    Ok(lines)
}
