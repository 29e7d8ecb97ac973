// From the text of a program to its firmware, and the trace of firmware under a script.
ghost use Rattle.std.specs.Prelude.{IfOk};
ghost use Rattle.frp_tree.specs.Tree.{program_tree_of};
ghost use Rattle.hex_file.specs.Written.{IsWritable};
ghost use Rattle.map_file.specs.MapRules.{IsMap};
ghost use Rattle.firmware_map.specs.Laws.{HasNames};

use arrival_script::{read_script, trace};
use causality::Checked;
use checked_source::{SourceFault, read};
use edge_io::SureSink;
use firmware::{BuildFault, Built, compile};
use std::alloc::Global;
use std::str;
use std::test::Fail;

// The longest script of a test, in bytes.
const LONGEST_SCRIPT: usize = 1000;

// The program that a text spells.
fn program_of(alloc: Global, source: &str) -> Result<Checked, SourceFault>
    ensures { IfOk result (λ c. HasNames (program_tree_of c.typed.program)) }
{
    read(alloc, source.as_bytes())
}

/// The firmware of the program that a text spells.
pub(crate) fn built_of(alloc: Global, source: &str) -> Result<Built, Fail>
    ensures writable { IfOk result (λ built. IsWritable built.image) }
    ensures rules { IfOk result (λ built. IsMap built.map) }
{
    let program = program_of(alloc, source)?;
    Ok(compile(alloc, &program)?)
}

/// Why nothing is built of the program that a text spells. None where something is.
pub(crate) fn fault_of(alloc: Global, source: &str) -> Result<Option<BuildFault>, Fail> {
    let program = program_of(alloc, source)?;
    match compile(alloc, &program) {
        Ok(_built) => Ok(None),
        Err(fault) => Ok(Some(fault)),
    }
}

/// The trace of firmware under a script of at most 1,000 bytes.
pub(crate) fn trace_of(alloc: Global, built: &Built, script: &str) -> Result<String, Fail>
    requires writable { IsWritable built.now.image }
    requires rules { IsMap built.now.map }
{
    if script.len() > LONGEST_SCRIPT {
        return Err(Fail::new("the script is too long"));
    }
    let script = read_script(alloc, script.as_bytes())?;
    let mut out = SureSink::new(alloc);
    trace(alloc, &built.image, &built.map, &script, &mut out)?;
    Ok(String::from_str(alloc, str::from_utf8(out.taken())?)?)
}

/// The trace of a program's firmware under a script.
pub(crate) fn run(alloc: Global, source: &str, script: &str) -> Result<String, Fail> {
    let built = built_of(alloc, source)?;
    trace_of(alloc, &built, script)
}
