//! What a description says.
ghost use Rattle.pla_reader.specs.Description.{IsDescription};
ghost use Rattle.std.proofs.Props.{props};

use lattice::{Kind, Names, Row, Seq};

/// A list of rows.
pub type Rows = Seq<Row>;

/// A description: the sizes, the type, the rows in the order of their lines, and the names that
/// were given.
///
/// A list of names is empty where none were given.
#[derive(Drop)]
pub struct Pla {
    pub inputs: u32,
    pub outputs: u32,
    pub kind: Kind,
    pub rows: Rows,
    pub in_names: Names,
    pub out_names: Names,
    pub ghost fits: { IsDescription inputs outputs kind rows
        in_names out_names } by { Prim.hlevel props },
}
