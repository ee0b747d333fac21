//! Tests of the public calls on words, files and texts, with a module for each crate that is
//! tested.
#![tactic(auto)]

#[cfg(test)]
mod of_aig_inputs;
#[cfg(test)]
mod of_aig_miter;
#[cfg(test)]
mod of_aig_pairs;
#[cfg(test)]
mod of_aig_reader;
#[cfg(test)]
mod of_anf_printer;
#[cfg(test)]
mod of_cert_check;
#[cfg(test)]
mod of_circuit_words;
#[cfg(test)]
mod of_cli_words;
#[cfg(test)]
mod of_cube_sets;
#[cfg(test)]
mod of_gen_pla;
#[cfg(test)]
mod of_lattice;
#[cfg(test)]
mod of_outside;
#[cfg(test)]
mod of_pla_reader;
#[cfg(test)]
mod of_watch;
