// Batch: a list of news, sets and deletes within one operation, up to the first that declines.
#![tactic(auto, using(crate::specs::Exits::laws))]

ghost use Rattle.std.specs.Prelude.{◌≡◌, ◌/◌, ◌+◌, length};
ghost use Rattle.transient.specs.Store.{store, table, outcome};
ghost use Rattle.transient.specs.Calls.{changed};
ghost use Rattle.transient.specs.Requires.{Entered};
ghost use Rattle.job_batch.specs.Batch.{bad_list, batch_jobs};
ghost use Rattle.job_batch.specs.Stages.{batched, kind_in, change_open, changes_open, batch_sized};
ghost use Rattle.job_batch.specs.Requires.{Changing, Listed, Narrow};

use reply::Refusal;
use transient::sizes::Sizes;

// How many changes were accepted, and what ended the batch: a refusal, or `Ok(())` where none did.
#[derive(Clone, Copy)]
pub struct Batch {
    pub accepted: u32,
    pub ended: Result<(), Refusal>,
}

// At most so many changes.
pub const MOST_CHANGES: usize = 64;

// The kinds of a change, as the words of a list.
pub const NEW: u32 = 1;

pub const SET: u32 = 2;

pub const DELETE: u32 = 3;

// The kind of a change.
#[derive(Clone, Copy, Debug, PartialEq, Eq)]
pub enum Kind {
    New,
    Set,
    Delete,
}

// A word as a kind.
impl TryFrom<u32> for Kind {
    type Error = Refusal;

    ghost try_from_gives = { λ x r. r ≡ kind_in x };

    fn try_from(x: u32) -> Result<Self, Refusal> {
        match x {
            NEW => Ok(Kind::New),
            SET => Ok(Kind::Set),
            DELETE => Ok(Kind::Delete),
            _ => Err(Refusal::BadArgument),
        }
    }
}

// Are there too many changes, or is one not whole?
fn bad_list(z: Sizes, changes: &[u32]) -> bool
    requires { Narrow z }
    ensures { result ≡ bad_list z changes.now }
{
    if MOST_CHANGES * (z.w + 1) < changes.len() {
        return true;
    }
    changes.len() % (z.w + 1) != 0
}

// A change: kind, key and value.
fn change(
    working: &mut [u32],
    transient: &mut [u32],
    z: Sizes,
    e: u32,
    c: &[u32],
) -> Result<(), Refusal>
    requires { Changing working.old transient.old z c.now }
    ensures { changed result working.new transient.new ≡ change_open z (table working.old transient.old) e c.now }
{
    let key = c[1];
    if key == 0 {
        return Err(Refusal::BadArgument);
    }
    match Kind::try_from(c[0]) {
        Ok(Kind::New) => job_new::new_open(working, transient, z, e, key, &c[2..]),
        Ok(Kind::Set) => job_set::set_open(working, transient, z, e, key, &c[2..]),
        Ok(Kind::Delete) => job_delete::delete_open(working, transient, z, e, key),
        Err(r) => Err(r),
    }
}

// What the entry check found holds after each change too, so that it is made once.
fn changes_open(
    working: &mut [u32],
    transient: &mut [u32],
    z: Sizes,
    e: u32,
    changes: &[u32],
) -> Batch
    requires { Listed working.old transient.old z changes.now }
    ensures { batched result working.new transient.new ≡ changes_open z e changes.now 0 (length changes.now / (z.w + 1)) (table working.old transient.old) }
{
    let many = changes.len() / (z.w + 1);
    for k in 0..many {
        let at = (z.w + 1) * k;
        match change(working, transient, z, e, &changes[at..at + z.w + 1]) {
            Ok(()) => {}
            Err(r) => {
                return Batch {
                    accepted: k as u32,
                    ended: Err(r),
                };
            }
        }
    }
    Batch {
        accepted: many as u32,
        ended: Ok(()),
    }
}

fn batch_sized(
    working: &mut [u32],
    transient: &mut [u32],
    z: Sizes,
    thread: usize,
    changes: &[u32],
) -> Batch
    requires { Entered working.old transient.old z }
    ensures { batched result working.new transient.new ≡ batch_sized thread changes.now z (table working.old transient.old) }
{
    let bad = bad_list(z, changes);
    match jobs::way::way_in(transient, z, thread, bad) {
        Err(r) => Batch {
            accepted: 0,
            ended: Err(r),
        },
        Ok(e) => changes_open(working, transient, z, e, changes),
    }
}

// Makes the changes of a list one by one, in the open operation of the thread.
#[tactic(auto, using(crate::specs::Exits::entering))]
pub fn batch_jobs(
    working: &mut [u32],
    persistent: &[u32],
    transient: &mut [u32],
    thread: u32,
    changes: &[u32],
) -> Batch
    ensures { outcome result working.new persistent.now transient.new ≡ batch_jobs (store working.old persistent.now transient.old) thread changes.now }
{
    match transient::entry::check(working, persistent, transient) {
        Err(r) => Batch {
            accepted: 0,
            ended: Err(r),
        },
        Ok(()) => {
            let z = transient::sizes::read_sizes(working, transient);
            batch_sized(working, transient, z, thread as usize, changes)
        }
    }
}
