// Logs of actions in dates and in gaps, and the conversion of one to the other.
#![tactic(auto)]

// How a log tells when its actions are.
pub mod format;

// What the ticks of a record stand for.
mod ticks;

// The records of a log in bytes.
mod record;

// A log to the other format.
pub mod convert;
