//! Functions that do nothing. Their contracts are the laws of `specs/Laws.antt`, so a check proves
//! these.
ghost use Rattle.aig_miter.specs.Laws.{MiterValues, CareOutputStays, MiterIsCircuit};

/// An output of the miter is 1 where exactly one of the circuits' outputs at its position is.
pub fn miter_values()
    ensures { MiterValues }
{}

/// The care output has in the miter the value that it has in the first circuit.
pub fn care_output_stays()
    ensures { CareOutputStays }
{}

/// The miter of circuits is a circuit, where it has no more gates than a circuit may have.
pub fn miter_is_circuit()
    ensures { MiterIsCircuit }
{}
