// The command retimer: the layers of code, each using only those before it.
#![tactic(auto)]

// The box's struct and its limits.
pub mod limits;

// Why a load or a call refuses.
pub mod reason;

// Numbers read from bytes, and bytes put at a place.
pub mod bytes;

// The comparisons that bounds make.
pub mod comparison;

// Readings of the clocks.
pub mod clocks;

// The check of a sheet at loading.
pub mod sheet;

// The transition that an action takes.
pub mod lookup;

// Sets of locations.
pub mod locations;

// Sets of configurations.
pub mod sets;

// From where an accepting location can still be reached.
pub mod liveness;

// The waits at which a transition is enabled.
pub mod waits;

// The least ticks of a list of actions.
mod costs;

// The locations that an action can enter.
mod targets;

// Layers of costs.
mod layers;

// The dates of a list of actions that has a correction.
pub mod optimum;

// What the next action comes to.
pub mod outlook;

// What a list of actions comes to.
pub mod reach;

// The lamp by the rule.
pub mod lamp;

// Lists that are kept at the front of arrays.
pub mod lists;

// The calls on a box's state.
pub mod state;

// The box's calls.
pub mod monitor;

// A list of calls on a fresh box.
pub mod replay;
