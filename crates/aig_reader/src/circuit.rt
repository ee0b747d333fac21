//! What a file says.
ghost use Rattle.aig_reader.specs.Circuit.{IsCircuit};
ghost use Rattle.std.proofs.Props.{props};

use lattice::{Names, Seq};

/// The greatest number of gates.
pub const MAX_GATES: u32 = 1_000_000;

/// The greatest number of outputs.
pub const MAX_OUTPUTS: u32 = 64;

/// The greatest variable.
pub const MAX_VARIABLES: u32 = 2_000_000;

/// A gate: it is 1 where both of its operands, which are literals, are 1.
#[derive(Clone, Copy, PartialEq, Eq, Debug)]
pub struct Gate {
    pub left: u32,
    pub right: u32,
}

/// A list of gates.
pub type Gates = Seq<Gate>;

/// A list of literals.
pub type Literals = Seq<u32>;

/// A circuit: the number of inputs, the gates in an order in which each stands only on what is
/// before it, the literals of the outputs, and the names that were given.
///
/// Variable 0 is constant 0, variables 1 to `inputs` are the inputs, and those behind them the
/// gates, in order. Literal 2 v is variable v, and literal 2 v + 1 is its complement. An input or
/// output that was given no name has the empty one.
#[derive(Drop)]
pub struct Aig {
    pub inputs: u32,
    pub gates: Gates,
    pub outputs: Literals,
    pub in_names: Names,
    pub out_names: Names,
    pub ghost fits: { IsCircuit inputs gates outputs in_names out_names } by { Prim.hlevel props },
}
