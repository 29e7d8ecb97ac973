// The code of an operation, from its template.

ghost use Rattle.std.specs.Prelude.{◌≡◌, ◌<◌, ◌≤◌, ◌++◌, [], IsTrue, IfOk, map, take};
ghost use Rattle.std.specs.List.{AllByRecursion};
ghost use Rattle.bank_alloc.specs.Addresses.{address_of};
ghost use Rattle.bank_alloc.specs.Needs.{bytes_of};
ghost use Rattle.byte_ops.specs.Cells.{AreIn, AreNot, Differ};
ghost use Rattle.byte_ops.specs.Kinds.{IsOp};
ghost use Rattle.byte_ops.specs.Meaning.{read_by, written_by};
ghost use Rattle.code_acts.specs.Codes.{PlacesFit};
ghost use Rattle.code_items.specs.declared.items.Item.TheVariants.{Ins as Instruction};
ghost use Rattle.op_code.specs.Laws.{ArePlaced, DoesAnywhere};
ghost use Rattle.op_code.specs.Named.{addresses_of, named_by as named_cells};
ghost use Rattle.op_code.specs.Operations.{DoesOp};
ghost use Rattle.op_code.specs.Templates.{acts_of};
ghost use Rattle.op_templates.specs.Laws.{HasByte};

use crate::named::{Named, named_by};
use bank_alloc::Places;
use byte_ops::Op;
use code_acts::{Act, instructions};
use code_items::{Code, Item};
use code_steps::Bank;
use frp_tree::List;
use op_templates::template;
use pic_isa::Instr;
use product_templates::product_template;
use std::alloc::{AllocError, Global};

/// Code as items, and what is known of the bank behind it.
#[derive(Debug, Drop)]
pub struct Coded {
    pub code: Code,
    pub bank: Bank,
}

// The address of a cell that is placed.
fn address(places: &Places, cell: u16) -> u16
    requires { cell < bytes_of places.now.need }
    ensures is { result ≡ address_of places.now.need cell }
    ensures below { result < 512 }
{
    places.address(u32::from(cell))
}

// The addresses of the cells that an operation's names stand for.
fn addresses(places: &Places, named: &Named) -> code_acts::Places
    requires { ArePlaced (bytes_of places.now.need) named.now }
    ensures is { result ≡ addresses_of places.now.need named.now }
    ensures fit { PlacesFit result }
{
    code_acts::Places {
        to: address(places, named.to),
        to_high: address(places, named.to_high),
        a: address(places, named.a),
        a_high: address(places, named.a_high),
        b: address(places, named.b),
        b_high: address(places, named.b_high),
        c: address(places, named.c),
    }
}

// The acts of an operation.
fn acts(alloc: Global, op: &Op) -> Result<Vec<Act>, AllocError>
    requires { IsOp op.now }
    ensures { IfOk result (λ acts. acts.items ≡ acts_of op.now) }
{
    match *op {
        Op::Product { f, wide, .. } => product_template(alloc, f, wide),
        _ => template(alloc, op),
    }
}

// Instructions as items of code.
fn items(alloc: Global, instrs: &[Instr]) -> Result<Code, AllocError>
    ensures { IfOk result (λ code. code.items ≡ map Instruction instrs.now) }
{
    let mut code = Code::new(alloc);
    for i in instrs {
        code.items.push(Item::Ins(*i))?;
    }
    Ok(code)
}

/// The code of an operation begun in this bank, with what is known of the bank behind it. It does the operation on the placed
/// cells wherever it stands, also under whole runs of others. The operator is of its kind; cells are placed; those that it writes
/// are none of those that it reads, and differ. The code lies in the allocator's memory. An `Err` is out
/// of memory.
pub fn code_in(alloc: Global, op: &Op, places: &Places, bank: Bank) -> Result<Coded, AllocError>
    requires kind { IsOp op.now }
    requires byte { HasByte op.now }
    requires read_in { AreIn (bytes_of places.now.need) (read_by op.now) }
    requires written_in { AreIn (bytes_of places.now.need) (written_by op.now) }
    requires apart { AllByRecursion (λ cell. AreNot cell (read_by op.now)) (written_by op.now) }
    requires differ { Differ (written_by op.now) }
    ensures { IfOk result (λ coded. DoesOp op.now places.now.need bank coded.bank coded.code.items) }
{
    let acts = acts(alloc, op)?;
    let named = addresses(places, &named_by(op));
    let coded = instructions(alloc, &acts, named, bank)?;
    Ok(Coded {
        code: items(alloc, coded.code.as_slice())?,
        bank: coded.bank,
    })
}

/// The code of an operation, begun in a bank that isn't known. It does the operation on the placed cells wherever it stands, also
/// under whole runs of others. Operation and cells are as for `code_in`. The code lies in the allocator's memory. An `Err` is out of
/// memory.
pub fn code_of(alloc: Global, op: &Op, places: &Places) -> Result<Code, AllocError>
    requires kind { IsOp op.now }
    requires byte { HasByte op.now }
    requires read_in { AreIn (bytes_of places.now.need) (read_by op.now) }
    requires written_in { AreIn (bytes_of places.now.need) (written_by op.now) }
    requires apart { AllByRecursion (λ cell. AreNot cell (read_by op.now)) (written_by op.now) }
    requires differ { Differ (written_by op.now) }
    ensures { IfOk result (λ code. DoesAnywhere op.now places.now.need code.items) }
{
    Ok(code_in(alloc, op, places, Bank::Unknown)?.code)
}
