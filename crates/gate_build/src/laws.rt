//! Functions that do nothing. Their contracts are the laws of `specs/Laws.antt`, so a check proves
//! these.
ghost use Rattle.gate_build.specs.Laws.{PolynomialHasValues, PolynomialIsOnly, PolynomialIsLeast};

/// The polynomial of a literal has its value at each point.
pub fn polynomial_has_values()
    ensures { PolynomialHasValues }
{}

/// It is the only polynomial with these values.
pub fn polynomial_is_only()
    ensures { PolynomialIsOnly }
{}

/// It is the least polynomial with these values.
pub fn polynomial_is_least()
    ensures { PolynomialIsLeast }
{}
