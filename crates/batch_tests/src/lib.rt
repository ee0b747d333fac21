//! Tests of the files of a stream and of what becomes of them, with a module for each crate that is
//! tested.
#![tactic(auto)]

#[cfg(test)]
mod of_batch_pipe;
#[cfg(test)]
mod of_file_batch;
#[cfg(test)]
mod of_file_stream;
