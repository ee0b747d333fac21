//! Whole runs over devices that fail, over devices that watch how they are used, and over files
//! that were cut short.
#![tactic(auto)]

#[cfg(test)]
mod tests;
