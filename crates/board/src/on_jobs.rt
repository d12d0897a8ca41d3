// The calls on jobs.
#![tactic(auto, using(crate::specs::Exits::laws))]

ghost use Rattle.std.specs.Prelude.{◌≡◌};
ghost use Rattle.transient.specs.Store.{store, outcome};
ghost use Rattle.transient.specs.Calls.{check_number};
ghost use Rattle.format.specs.Format.{format};
ghost use Rattle.begin_end.specs.Operation.{begin, end};
ghost use Rattle.jobs.specs.Job.{job};
ghost use Rattle.job_new.specs.New.{new_job};
ghost use Rattle.job_set.specs.Set.{set_job};
ghost use Rattle.job_delete.specs.Delete.{delete_job};
ghost use Rattle.job_batch.specs.Batch.{batch_jobs, batch_number};
ghost use Rattle.job_read.specs.Read.{read_job, read_number, read_position};
ghost use Rattle.board.specs.Calls.{numbered};

use job_batch::Batch;
use reply::Refusal;

// 0 for accepted, else 01's number of the refusal.
pub fn reply_number(k: Result<(), Refusal>) -> u32
    ensures { result ≡ check_number k }
{
    match k {
        Ok(()) => 0,
        Err(r) => u32::from(r),
    }
}

pub fn board_format(
    working: &mut [u32],
    persistent: &mut [u32],
    transient: &mut [u32],
    slots: u32,
    words: u32,
) -> u32
    ensures { outcome result working.new persistent.new transient.new ≡ numbered check_number (format (store working.old persistent.old transient.old) slots words) }
{
    reply_number(format::format(working, persistent, transient, slots, words))
}

pub fn board_begin(working: &[u32], persistent: &[u32], transient: &mut [u32], thread: u32) -> u32
    ensures { outcome result working.now persistent.now transient.new ≡ numbered check_number (begin (store working.now persistent.now transient.old) thread) }
{
    reply_number(begin_end::begin(working, persistent, transient, thread))
}

pub fn board_end(working: &[u32], persistent: &[u32], transient: &mut [u32], thread: u32) -> u32
    ensures { outcome result working.now persistent.now transient.new ≡ numbered check_number (end (store working.now persistent.now transient.old) thread) }
{
    reply_number(begin_end::end(working, persistent, transient, thread))
}

pub fn board_new(
    working: &mut [u32],
    persistent: &[u32],
    transient: &mut [u32],
    thread: u32,
    key: u32,
    value: &[u32],
) -> u32
    ensures { outcome result working.new persistent.now transient.new ≡ numbered check_number (new_job (store working.old persistent.now transient.old) thread (job key value.now)) }
{
    reply_number(job_new::new(working, persistent, transient, thread, key, value))
}

pub fn board_set(
    working: &mut [u32],
    persistent: &[u32],
    transient: &mut [u32],
    thread: u32,
    key: u32,
    value: &[u32],
) -> u32
    ensures { outcome result working.new persistent.now transient.new ≡ numbered check_number (set_job (store working.old persistent.now transient.old) thread (job key value.now)) }
{
    reply_number(job_set::set(working, persistent, transient, thread, key, value))
}

pub fn board_delete(
    working: &mut [u32],
    persistent: &[u32],
    transient: &mut [u32],
    thread: u32,
    key: u32,
) -> u32
    ensures { outcome result working.new persistent.now transient.new ≡ numbered check_number (delete_job (store working.old persistent.now transient.old) thread key) }
{
    reply_number(job_delete::delete(working, persistent, transient, thread, key))
}

// How many changes were accepted, and 2^32 times the refusal that ended the batch, 0 for none.
fn batch_number(b: Batch) -> u64
    ensures { result ≡ batch_number b }
{
    let ended = b.ended;
    b.accepted as u64 + 4294967296 * reply_number(ended) as u64
}

pub fn board_batch(
    working: &mut [u32],
    persistent: &[u32],
    transient: &mut [u32],
    thread: u32,
    changes: &[u32],
) -> u64
    ensures { outcome result working.new persistent.now transient.new ≡ numbered batch_number (batch_jobs (store working.old persistent.now transient.old) thread changes.now) }
{
    batch_number(job_batch::batch_jobs(working, persistent, transient, thread, changes))
}

// Where the value starts in the working image, or 2^32 plus the refusal.
pub fn board_read(
    working: &[u32],
    persistent: &[u32],
    transient: &[u32],
    thread: u32,
    key: u32,
) -> u64
    ensures { result ≡ read_position (read_job (store working.now persistent.now transient.now) thread key) working.now }
{
    job_read::read_position(working, persistent, transient, thread, key)
}

pub fn board_read_refusal(
    working: &[u32],
    persistent: &[u32],
    transient: &[u32],
    thread: u32,
    key: u32,
) -> u32
    ensures { result ≡ read_number (read_job (store working.now persistent.now transient.now) thread key) }
{
    job_read::read_refusal(working, persistent, transient, thread, key)
}
