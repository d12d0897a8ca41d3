// Look: the value of the queue's front, as a part of the working image.
#![tactic(auto, using(crate::specs::Exits::laws))]

ghost use Rattle.std.specs.Prelude.{◌≡◌};
ghost use Rattle.transient.specs.Store.{store, table};
ghost use Rattle.transient.specs.Requires.{Entered};
ghost use Rattle.job_read.specs.Read.{shown_value, read_number, read_position};
ghost use Rattle.queue_look.specs.Look.{look_sized, look_entry};
ghost use Rattle.queue_look.specs.Stages.{look_open};

use reply::Refusal;
use transient::sizes::Sizes;

fn look_open(working: &[u32], transient: &[u32], z: Sizes, e: u32) -> Result<usize, Refusal>
    requires { Entered working.now transient.now z }
    ensures { result ≡ look_open z (table working.now transient.now) e }
{
    queue::look_up_front(working, transient, z, e)?.ok_or(Refusal::QueueEmpty)
}

fn look_sized(working: &[u32], transient: &[u32], z: Sizes, thread: usize) -> Result<usize, Refusal>
    requires { Entered working.now transient.now z }
    ensures { result ≡ look_sized thread z (table working.now transient.now) }
{
    if z.t <= thread {
        return Err(Refusal::NoThread);
    }
    let e = transient::notes::open_epoch(transient, z, thread);
    look_open(working, transient, z, e)
}

pub fn look_slot(
    working: &[u32],
    persistent: &[u32],
    transient: &[u32],
    thread: u32,
) -> Result<usize, Refusal>
    ensures { result ≡ look_entry (store working.now persistent.now transient.now) thread }
{
    transient::entry::check(working, persistent, transient)?;
    let z = transient::sizes::read_sizes(working, transient);
    look_sized(working, transient, z, thread as usize)
}

// The value, as the caller's own part of the working image; empty on refusal.
pub fn look<'a>(working: &'a [u32], persistent: &[u32], transient: &[u32], thread: u32) -> &'a [u32]
    ensures { result.now ≡ shown_value (look_entry (store working.now persistent.now transient.now) thread) working.now }
{
    job_read::shown(working, look_slot(working, persistent, transient, thread))
}

// The number of look's refusal, 0 for none.
pub fn look_refusal(working: &[u32], persistent: &[u32], transient: &[u32], thread: u32) -> u32
    ensures { result ≡ read_number (look_entry (store working.now persistent.now transient.now) thread) }
{
    job_read::reading_number(look_slot(working, persistent, transient, thread))
}

// For C: where the value starts in the working image, or 2^32 plus the refusal.
pub fn look_position(working: &[u32], persistent: &[u32], transient: &[u32], thread: u32) -> u64
    ensures { result ≡ read_position (look_entry (store working.now persistent.now transient.now) thread) working.now }
{
    job_read::reading_position(working, look_slot(working, persistent, transient, thread))
}
