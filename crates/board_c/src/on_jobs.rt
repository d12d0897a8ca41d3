// The calls on jobs.
ghost use Rattle.std.specs.Prelude.{◌≡◌};
ghost use Rattle.transient.specs.Store.{store, outcome};
ghost use Rattle.transient.specs.Calls.{check_number};
ghost use Rattle.format.specs.Format.{format};
ghost use Rattle.begin_end.specs.Operation.{begin, end};
ghost use Rattle.jobs.specs.Job.{job};
ghost use Rattle.job_new.specs.New.{new_job};
ghost use Rattle.job_set.specs.Set.{set_job};
ghost use Rattle.job_delete.specs.Delete.{delete_job};
ghost use Rattle.job_batch.specs.Batch.{batch_jobs, batch_number};
ghost use Rattle.job_read.specs.Read.{read_job, read_number, read_position};
ghost use Rattle.board.specs.Calls.{numbered};

#[unsafe(no_mangle)]
pub extern "C" fn board_format(
    working: &mut [u32],
    persistent: &mut [u32],
    transient: &mut [u32],
    slots: u32,
    words: u32,
) -> u32
    ensures { outcome result working.new persistent.new transient.new ≡ numbered check_number (format (store working.old persistent.old transient.old) slots words) }
{
    board::on_jobs::board_format(working, persistent, transient, slots, words)
}

#[unsafe(no_mangle)]
pub extern "C" fn board_begin(
    working: &[u32],
    persistent: &[u32],
    transient: &mut [u32],
    thread: u32,
) -> u32
    ensures { outcome result working.now persistent.now transient.new ≡ numbered check_number (begin (store working.now persistent.now transient.old) thread) }
{
    board::on_jobs::board_begin(working, persistent, transient, thread)
}

#[unsafe(no_mangle)]
pub extern "C" fn board_end(
    working: &[u32],
    persistent: &[u32],
    transient: &mut [u32],
    thread: u32,
) -> u32
    ensures { outcome result working.now persistent.now transient.new ≡ numbered check_number (end (store working.now persistent.now transient.old) thread) }
{
    board::on_jobs::board_end(working, persistent, transient, thread)
}

#[unsafe(no_mangle)]
pub extern "C" fn board_new(
    working: &mut [u32],
    persistent: &[u32],
    transient: &mut [u32],
    thread: u32,
    key: u32,
    value: &[u32],
) -> u32
    ensures { outcome result working.new persistent.now transient.new ≡ numbered check_number (new_job (store working.old persistent.now transient.old) thread (job key value.now)) }
{
    board::on_jobs::board_new(working, persistent, transient, thread, key, value)
}

#[unsafe(no_mangle)]
pub extern "C" fn board_set(
    working: &mut [u32],
    persistent: &[u32],
    transient: &mut [u32],
    thread: u32,
    key: u32,
    value: &[u32],
) -> u32
    ensures { outcome result working.new persistent.now transient.new ≡ numbered check_number (set_job (store working.old persistent.now transient.old) thread (job key value.now)) }
{
    board::on_jobs::board_set(working, persistent, transient, thread, key, value)
}

#[unsafe(no_mangle)]
pub extern "C" fn board_delete(
    working: &mut [u32],
    persistent: &[u32],
    transient: &mut [u32],
    thread: u32,
    key: u32,
) -> u32
    ensures { outcome result working.new persistent.now transient.new ≡ numbered check_number (delete_job (store working.old persistent.now transient.old) thread key) }
{
    board::on_jobs::board_delete(working, persistent, transient, thread, key)
}

#[unsafe(no_mangle)]
pub extern "C" fn board_batch(
    working: &mut [u32],
    persistent: &[u32],
    transient: &mut [u32],
    thread: u32,
    changes: &[u32],
) -> u64
    ensures { outcome result working.new persistent.now transient.new ≡ numbered batch_number (batch_jobs (store working.old persistent.now transient.old) thread changes.now) }
{
    board::on_jobs::board_batch(working, persistent, transient, thread, changes)
}

// Where the value starts in the working image, or 2^32 plus the refusal.
#[unsafe(no_mangle)]
pub extern "C" fn board_read(
    working: &[u32],
    persistent: &[u32],
    transient: &[u32],
    thread: u32,
    key: u32,
) -> u64
    ensures { result ≡ read_position (read_job (store working.now persistent.now transient.now) thread key) working.now }
{
    board::on_jobs::board_read(working, persistent, transient, thread, key)
}

#[unsafe(no_mangle)]
pub extern "C" fn board_read_refusal(
    working: &[u32],
    persistent: &[u32],
    transient: &[u32],
    thread: u32,
    key: u32,
) -> u32
    ensures { result ≡ read_number (read_job (store working.now persistent.now transient.now) thread key) }
{
    board::on_jobs::board_read_refusal(working, persistent, transient, thread, key)
}
