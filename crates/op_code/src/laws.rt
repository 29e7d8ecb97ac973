// Laws of code that does operations one after the other. Each is the contract of a function that does nothing.

ghost use Rattle.std.specs.Prelude.{List as Items};
ghost use Rattle.bank_alloc.specs.declared.needs.Needs.{Needs as AnyNeeds};
ghost use Rattle.byte_ops.specs.declared.operations.Op.{Op as AnyOp};
ghost use Rattle.code_items.specs.declared.items.Item.{Item as AnyItem};
ghost use Rattle.code_steps.specs.declared.banks.Bank.{Bank as AnyBank};
ghost use Rattle.op_code.specs.Laws.{KeepsBank, NoneDoes, OneMoreDoes, PartsDo};
ghost use Rattle.pic_isa.specs.declared.instructions.Instr.{Instr as AnyInstr};
ghost use Rattle.pic_machine.specs.Chip.{Chip};
ghost use Rattle.pic_machine.specs.Results.{Done};

/// No code does no operations, in any bank.
pub fn none_does()
    ensures { (need : AnyNeeds) (bank : AnyBank) → NoneDoes need bank }
{}

/// Code of an operation, before code of others that goes on in the bank where it ended, does it and then the others.
pub fn one_more_does()
    ensures { (op : AnyOp) (ops : Items AnyOp) (need : AnyNeeds) (bank mid to : AnyBank) (xs ys : Items AnyItem) → OneMoreDoes op ops need bank mid to xs ys }
{}

/// Code of some operations, before code of others that goes on in the bank where it ended, does the first and then the others.
pub fn parts_do()
    ensures { (ops more : Items AnyOp) (need : AnyNeeds) (bank mid to : AnyBank) (xs ys : Items AnyItem) → PartsDo ops more need bank mid to xs ys }
{}

/// A step of an instruction that names STATUS for its bits alone, and sets no bank bit, keeps RP1 and RP0.
pub fn keeps_bank()
    ensures { (i : AnyInstr) (c : Chip) (done : Done) → KeepsBank i c done }
{}
