// The calls on the hand-over queue.
ghost use Rattle.std.specs.Prelude.{◌≡◌};
ghost use Rattle.transient.specs.Store.{store, outcome};
ghost use Rattle.transient.specs.Calls.{check_number};
ghost use Rattle.job_read.specs.Read.{read_number, read_position};
ghost use Rattle.queue_append.specs.Append.{append_entry, append_number};
ghost use Rattle.queue_take.specs.Take.{take_entry};
ghost use Rattle.queue_look.specs.Look.{look_entry};
ghost use Rattle.board.specs.Calls.{numbered};

// The order number that the entry was given, or 2^32 plus the refusal.
#[tactic(auto, using(crate::specs::Exits::laws))]
pub fn board_append(
    working: &mut [u32],
    persistent: &[u32],
    transient: &mut [u32],
    thread: u32,
    value: &[u32],
) -> u64
    ensures { outcome result working.new persistent.now transient.new ≡ numbered append_number (append_entry (store working.old persistent.now transient.old) thread value.now) }
{
    match queue_append::append_entry(working, persistent, transient, thread, value) {
        Ok(order) => order as u64,
        Err(r) => reply::declined(r),
    }
}

// 0 for accepted, else 01's number of the refusal.
#[tactic(auto, using(crate::specs::Exits::laws))]
pub fn board_take(
    working: &mut [u32],
    persistent: &[u32],
    transient: &mut [u32],
    thread: u32,
) -> u32
    ensures { outcome result working.new persistent.now transient.new ≡ numbered check_number (take_entry (store working.old persistent.now transient.old) thread) }
{
    crate::on_jobs::reply_number(queue_take::take(working, persistent, transient, thread))
}

// Where the value starts in the working image, or 2^32 plus the refusal.
pub fn board_look(working: &[u32], persistent: &[u32], transient: &[u32], thread: u32) -> u64
    ensures { result ≡ read_position (look_entry (store working.now persistent.now transient.now) thread) working.now }
{
    queue_look::look_position(working, persistent, transient, thread)
}

pub fn board_look_refusal(
    working: &[u32],
    persistent: &[u32],
    transient: &[u32],
    thread: u32,
) -> u32
    ensures { result ≡ read_number (look_entry (store working.now persistent.now transient.now) thread) }
{
    queue_look::look_refusal(working, persistent, transient, thread)
}
