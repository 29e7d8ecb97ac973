// The law of templates: the contract of a function that does nothing.

ghost use Rattle.byte_ops.specs.declared.operations.Op.{Op as AnyOp};
ghost use Rattle.op_templates.specs.Laws.{HasTemplate};

/// Each operation but products has its template, which does what the operation means for the bytes that have its names, is sound,
/// and takes few words.
pub fn templates_are_right()
    ensures { (op : AnyOp) → HasTemplate op }
{}
