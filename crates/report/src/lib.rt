// The lines that the desk program prints, as text in a buffer that the caller lends.
#![tactic(auto)]

pub mod line;
pub mod text;
