// The line of a program of which nothing is built.
ghost use Rattle.std.specs.Prelude.{◌≡◌, ◌≢◌, IfOk, string_bytes};
ghost use Rattle.frp_tool.specs.Lines.{build_line};

use firmware::BuildFault;
use std::alloc::{AllocError, Global};

/// The line of a program of which nothing is built. Where memory ran out, which has no line, there is an `Err` too.
pub fn build_line(alloc: Global, fault: BuildFault) -> Result<String, AllocError>
    ensures { IfOk result (λ line. (fault ≢ BuildFault.Memory) × (string_bytes line ≡ build_line fault)) }
{
    match fault {
        BuildFault::Form => String::from_str(alloc, "refused: form\n"),
        BuildFault::Stack(levels) => format!(in alloc; "refused: stack {levels}\n"),
        BuildFault::Ram(bytes) => format!(in alloc; "refused: ram {bytes}\n"),
        BuildFault::Code(words) => format!(in alloc; "refused: code {words}\n"),
        BuildFault::Memory => Err(AllocError),
    }
}
