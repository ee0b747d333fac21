//! What solves a circuit.
use lattice::MonoLists;

/// The terms of the answers, in the order of the outputs, and those of the elements of the reduced
/// basis, by ascending lead; of each from the greatest to the least.
#[derive(Drop)]
pub struct Solution {
    pub polynomials: MonoLists,
    pub basis: MonoLists,
}
