// Registers as the code names them.

/// What an address of data memory means: nothing, a register that the chip treats in its own way, a port
/// or its TRIS by the port's number (0 for A to 4 for E), or a plain byte by its lowest address, below
/// 512.
#[derive(Clone, Copy, Debug, PartialEq, Eq)]
pub enum Place {
    Absent,
    Indf,
    Pcl,
    Status,
    Fsr,
    Pclath,
    Intcon,
    Pir1,
    Pir2,
    Pie1,
    Pie2,
    Port(u8),
    Tris(u8),
    Plain(u16),
}
