// Reading and writing the cells of a pair.

ghost use Rattle.std.specs.Prelude.{◌≡◌, ℕ, ◌<◌, length, ◌≢◌};
ghost use Rattle.std.specs.List.{AllByRecursion};
ghost use Rattle.byte_ops.specs.Cells.{AreIn, AreNot, Differ, cell_of, cells_of, held, modulus_of};

use crate::operations::Pair;

// What a pair of cells holds.
pub(crate) fn read(cells: &[u8], wide: bool, pair: Pair) -> u16
    requires { AreIn (length cells.now) (cells_of wide pair) }
    ensures fits { result < modulus_of wide }
    ensures value { result ≡ held wide pair (cell_of cells.now) }
{
    let low = u16::from(cells[pair.low as usize]);
    if wide {
        low + 256 * u16::from(cells[pair.high as usize])
    } else {
        low
    }
}

// Writes a number into a pair of cells.
pub(crate) fn write(cells: &mut [u8], wide: bool, pair: Pair, value: u16)
    requires in_range { AreIn (length cells.old) (cells_of wide pair) }
    requires differ { Differ (cells_of wide pair) }
    requires fits { value < modulus_of wide }
    ensures value { held wide pair (cell_of cells.new) ≡ value }
    ensures others { (cell : ℕ) → AreNot cell (cells_of wide pair) → cell_of cells.new cell ≡ cell_of cells.old cell }
{
    cells[pair.low as usize] = (value % 256) as u8;
    if wide {
        cells[pair.high as usize] = (value / 256) as u8;
    }
}

// Writes a byte into a cell.
pub(crate) fn put(cells: &mut [u8], to: u16, byte: u8)
    requires { to < length cells.old }
    ensures value { cell_of cells.new to ≡ byte }
    ensures others { (cell : ℕ) → cell ≢ to → cell_of cells.new cell ≡ cell_of cells.old cell }
{
    cells[to as usize] = byte;
}
