// What is told of a source and a fault line.
ghost use Rattle.std.specs.Prelude.{◌≡◌, [], ◌∷◌, ◌++◌, ◌≤◌, OnOk, IfOk, length, string_bytes};
ghost use Rattle.where_tool.specs.Spots.{IsReport, head_line, margin, pad, shown};

use crate::points::Point;
use crate::spots::spot_of;
use frp_tree::{List, Text};
use std::alloc::{AllocError, Global};

// Adds a byte, if it is shown.
fn add_byte(report: &mut List<u8>, byte: u8) -> Result<(), AllocError>
    ensures { OnOk result (report.new ≡ report.old ++ shown (byte ∷ [])) }
{
    if byte == b'\r' {
        return Ok(());
    }
    report.push(byte)
}

// Adds the bytes that are shown.
fn add_shown(report: &mut List<u8>, bytes: &[u8]) -> Result<(), AllocError>
    ensures { OnOk result (report.new ≡ report.old ++ shown bytes.now) }
{
    for byte in bytes {
        add_byte(report, *byte)?;
    }
    Ok(())
}

fn pad(byte: u8) -> u8
    ensures { result ≡ pad byte }
{
    if byte == b'\t' { b'\t' } else { b' ' }
}

// Adds what stands above the caret's place under a byte, if it is shown.
fn add_pad(report: &mut List<u8>, byte: u8) -> Result<(), AllocError>
    ensures { OnOk result (report.new ≡ report.old ++ margin (byte ∷ [])) }
{
    if byte == b'\r' {
        return Ok(());
    }
    report.push(pad(byte))
}

// Adds what stands above the caret's place.
fn add_margin(report: &mut List<u8>, front: &[u8]) -> Result<(), AllocError>
    ensures { OnOk result (report.new ≡ report.old ++ margin front.now) }
{
    for byte in front {
        add_pad(report, *byte)?;
    }
    Ok(())
}

// The first line of a report.
fn head_line(
    alloc: Global,
    name: &Text,
    line: usize,
    column: usize,
    message: &str,
) -> Result<String, AllocError>
    ensures { IfOk result (λ text. string_bytes text ≡ head_line name.now line column message.now) }
{
    let name = name.as_str();
    format!(in alloc; "{name}:{line}:{column}: {message}\n")
}

/// The report of a point in a text: its place with the message, its line, and a caret under it.
pub fn report(
    alloc: Global,
    name: &Text,
    text: &[u8],
    point: &Point,
) -> Result<List<u8>, AllocError>
    requires { point.now.place ≤ length text.now }
    ensures { IfOk result (λ report. IsReport text.now name.now point.now.place (string_bytes point.now.message) report) }
{
    let spot = spot_of(text, point.place);
    let column = spot.front.len() + 1;
    let head = head_line(alloc, name, spot.line, column, point.message.as_str())?;
    let mut report = List::new(alloc);
    report.extend_from_slice(head.as_bytes())?;
    add_shown(&mut report, spot.front)?;
    add_shown(&mut report, spot.back)?;
    report.push(b'\n')?;
    add_margin(&mut report, spot.front)?;
    report.extend_from_slice(b"^\n")?;
    Ok(report)
}
