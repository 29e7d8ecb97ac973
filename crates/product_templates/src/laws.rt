// What holds of every product's and quotient's acts, as contracts of functions that do nothing.
ghost use Rattle.frp_tree.specs.declared.syntax.BinOp.{BinOp};
ghost use Rattle.std.specs.Prelude.{Bool};
ghost use Rattle.product_templates.specs.Laws.{AreSound, AreShort, CoreDoes, TemplateDoes};

/// Each core and each template is sound: it names and writes what it may, and no skip is pending at its end.
pub fn are_sound()
    ensures { (f : BinOp) (wide : Bool) → AreSound f wide }
{}

/// The words that each template takes at most, within its operator's weight.
pub fn are_short()
    ensures { (f : BinOp) (wide : Bool) → AreShort f wide }
{}

/// From every state without a pending skip the template does its operation.
pub fn template_does()
    ensures { (f : BinOp) (wide : Bool) → TemplateDoes f wide }
{}

/// From every state without a pending skip the core does its operation, on operand bytes.
pub fn core_does()
    ensures { (f : BinOp) (wide : Bool) → CoreDoes f wide }
{}
