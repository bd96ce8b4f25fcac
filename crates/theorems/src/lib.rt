// Every statement that answers the three demands and the change requests: on values, in tables, about the calls for C; no function.
#![tactic(auto)]

pub mod coarse;
pub mod disc;
pub mod lacking;
pub mod order;
pub mod shelves;
