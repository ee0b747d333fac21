//! Tests of the public calls that several threads share, with a module for each crate that is
//! tested.
#![tactic(auto)]

#[cfg(test)]
mod of_computed_cache;
#[cfg(test)]
mod of_fork_branches;
#[cfg(test)]
mod of_job_counter;
#[cfg(test)]
mod of_job_deques;
#[cfg(test)]
mod of_probe_core;
#[cfg(test)]
mod of_steal_pool;
#[cfg(test)]
mod of_unique_table;
