// The notes (01), lost at a crash: a lent slice of 70 + T + 3N words, whose numbers only this crate knows. T is what the length
// leaves. Beside them: a store with its sizes, and the check at a call's entry.
#![tactic(auto)]

pub mod entry;
pub mod lists;
pub mod notes;
pub mod sizes;
