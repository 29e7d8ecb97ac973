// Laws of items that stand in program memory. Each is the contract of a function that does nothing.

ghost use Rattle.std.specs.Prelude.{ℕ, Bool, List as Items};
ghost use Rattle.code_items.specs.declared.items.Item.{Item as AnyItem};
ghost use Rattle.pic_isa.specs.declared.instructions.Instr.{Instr as AnyInstr};
ghost use Rattle.pic_machine.specs.Chip.{Chip};
ghost use Rattle.code_steps.specs.Laws.{Piece};
ghost use Rattle.code_items.specs.Laws.{JumpArrives, MarkLiesWithin, OnceInBoth, PieceStands, PiecesApart, ShortReaches, SkipDecides, StandsInParts, StandsRaised};

/// Items in two parts stand one after the other, where the first part ends in no skip instruction.
pub fn stands_in_parts()
    ensures { (paged : Bool) (program marks : ℕ → ℕ) (p q : ℕ) (xs ys : Items AnyItem) → StandsInParts paged program marks p q xs ys }
{}

/// Where raised items stand, the items stand with each mark where the raised one is.
pub fn stands_raised()
    ensures { (paged : Bool) (program marks : ℕ → ℕ) (up p q : ℕ) (items : Items AnyItem) → StandsRaised paged program marks up p q items }
{}

/// A mark before a word has an address among those of the items' words.
pub fn mark_lies_within()
    ensures { (paged : Bool) (program marks : ℕ → ℕ) (p q m : ℕ) (xs ys : Items AnyItem) → MarkLiesWithin paged program marks p q m xs ys }
{}

/// Each of some pieces that stand one after another stands where those before it end.
pub fn each_piece_stands()
    ensures { (paged : Bool) (program marks : ℕ → ℕ) (pieces : Items (Items AnyItem)) (q k : ℕ) → PieceStands paged program marks pieces q k }
{}

/// No address lies in two pieces.
pub fn pieces_are_apart()
    ensures { (paged : Bool) (pieces : Items (Items AnyItem)) (j k address : ℕ) → PiecesApart paged pieces j k address }
{}

/// A jump arrives at its mark, on any page, however others' runs interrupt it.
pub fn jump_arrives()
    ensures { (paged : Bool) (program marks : ℕ → ℕ) (piece : Piece) (p q m : ℕ) (items : Items AnyItem) (c : Chip)
        → JumpArrives paged program marks piece p q m items c }
{}

/// A skip instruction with a jump behind it skips the whole jump or jumps, as its test says.
pub fn skip_decides()
    ensures { (paged : Bool) (program marks : ℕ → ℕ) (piece : Piece) (p q m : ℕ) (i : AnyInstr) (test : Chip → Bool) (items : Items AnyItem) (c : Chip)
        → SkipDecides paged program marks piece p q m i test items c }
{}

/// In code without page settings a mark before a word is reached where bits 4 and 3 of PCLATH are 0.
pub fn short_code_reaches()
    ensures { (program marks : ℕ → ℕ) (q m : ℕ) (xs ys : Items AnyItem) (c : Chip) → ShortReaches program marks q m xs ys c }
{}

/// Each mark stands at most once in two parts that have no mark in common, where it does so in each.
pub fn marks_stand_once()
    ensures { (first second : ℕ → Bool) (xs ys : Items AnyItem) → OnceInBoth first second xs ys }
{}
