//! Tests of the public calls on diagrams and on lists of points, with a module for each crate that
//! is tested.
#![tactic(auto)]

#[cfg(test)]
mod of_bool_poly;
#[cfg(test)]
mod of_circuit_solve;
#[cfg(test)]
mod of_cube_build;
#[cfg(test)]
mod of_diagram_measures;
#[cfg(test)]
mod of_gate_build;
#[cfg(test)]
mod of_interp_list;
#[cfg(test)]
mod of_node_store;
#[cfg(test)]
mod of_set_algebra;
#[cfg(test)]
mod of_std_monomials;
#[cfg(test)]
mod of_vanish_basis;
