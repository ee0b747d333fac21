//! Functions that do nothing. Their contracts are the laws of `specs/Laws.antt`, so a check proves
//! these.
ghost use Rattle.aig_inputs.specs.Laws.{ArrangedValues, PointsAreArranged, FileOrderKeepsCircuit};

/// A literal has the same value in the arranged circuit, at the point that belongs to the file's.
pub fn arranged_values()
    ensures { ArrangedValues }
{}

/// Each point has a point of the file, and each point of the file is that of exactly one point.
pub fn points_are_arranged()
    ensures { PointsAreArranged }
{}

/// The order of the file without inverted inputs changes nothing.
pub fn file_order_keeps_circuit()
    ensures { FileOrderKeepsCircuit }
{}
