//! Tests of the query program: of its parts as a library, and of whole runs.
#![tactic(auto)]

#[cfg(test)]
mod of_nf_run;
