// The product of two automata: two sheets as one.
#![tactic(auto)]

// Its locations.
mod location;

// Where the transitions of a location lie.
mod row;

// How many transitions the product has.
mod count;

// The bytes of its transitions.
mod transitions;

// The bytes of its header and pairs.
mod header;

// Two sheets as one.
pub mod join;
