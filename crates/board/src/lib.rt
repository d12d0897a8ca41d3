// The public calls. None requires anything: bad input is refused. `board_c` exports each to C.
#![tactic(auto)]

pub mod lengths;
pub mod on_jobs;
pub mod on_queue;
pub mod persist;
pub mod questions;
pub mod recover;
pub mod version;
