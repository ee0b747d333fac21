//! Functions that do nothing. Their contracts are the laws of `specs/Laws.antt`, so a check proves
//! these.
ghost use Rattle.diagram_measures.specs.Laws.{DegreeIsGreatest, LeastMemberIsLeast};
ghost use Rattle.diagram_measures.specs.Laws.{NodesAreSubfamilies};

/// No term has more variables than the degree, and where there are terms, one has as many.
pub fn degree_is_greatest()
    ensures { DegreeIsGreatest }
{}

/// A list that has the subfamilies of a family, each once and no others, has as many as its
/// diagram has nodes.
pub fn nodes_are_subfamilies()
    ensures { NodesAreSubfamilies }
{}

/// The least member of a family is a member that no other is less than; the empty family alone has
/// none.
pub fn least_member_is_least()
    ensures { LeastMemberIsLeast }
{}
