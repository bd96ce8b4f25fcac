// The C library: each call that C makes, with the clauses of the room's function that answers it.
#![tactic(auto)]

mod disc_calls;
mod list_calls;
mod record_calls;
mod shelf_calls;
