//! Tests of whole runs of the program on circuits.
#![tactic(auto)]

#[cfg(test)]
mod of_circuit_run;
