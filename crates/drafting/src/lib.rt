// Sheets and lists of calls for tests, from text in the notation of document 01: decimal numbers with anything between them.
#![tactic(auto)]

pub mod field;
pub mod numeral;
pub mod script;
