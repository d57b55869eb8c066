// Functions for host programs in C and Rust: a slice of bytes passes as a pointer and then a length. What is promised is of slices that do not overlap.
#![tactic(auto)]

// The conversion of logs.
pub mod log;

// Sheets.
pub mod sheet;
