//! Tests of whole runs of the program and of what runs are made of, with a module for each crate
//! that is tested.
#![tactic(auto)]

#[cfg(test)]
mod of_interp_run;
#[cfg(test)]
mod of_program;
#[cfg(test)]
mod of_uses_library;
