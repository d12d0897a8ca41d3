// What C links: each public call of `board` under its own name, with the same clauses. include/board.h is their C view.
#![tactic(auto)]

mod lengths;
mod on_jobs;
mod on_queue;
mod persist;
mod questions;
mod recover;
mod version;
