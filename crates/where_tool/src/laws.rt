// What is true of the walk of the checks and of the places of faults, as contracts of functions that do nothing.
ghost use Rattle.frp_tree.specs.Tree.{ProgramTree};
ghost use Rattle.where_tool.specs.Laws.{OnePoint, OneReport, PointIsWithin, VisitsTell};

/// The faults that the walk meets are those of the checks, in their order.
pub fn visits_tell()
    ensures { (p : ProgramTree) → VisitsTell p }
{}

/// What a text is read as stands at one place, where one message is told.
pub fn one_point()
    ensures { OnePoint }
{}

/// It stands in the text, or at its end.
pub fn point_is_within()
    ensures { PointIsWithin }
{}

/// A place and a message have one report.
pub fn one_report()
    ensures { OneReport }
{}
