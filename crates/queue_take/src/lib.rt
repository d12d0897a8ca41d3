// Take: the front of the queue ends, as a deleted job does.
#![tactic(auto, using(crate::specs::Exits::laws))]

ghost use Rattle.std.specs.Prelude.{◌≡◌};
ghost use Rattle.transient.specs.Store.{store, table, outcome};
ghost use Rattle.transient.specs.Calls.{changed};
ghost use Rattle.transient.specs.Requires.{Entered};
ghost use Rattle.queue_take.specs.Take.{take_entry};
ghost use Rattle.queue_take.specs.Stages.{take_open, take_sized};

use reply::Refusal;
use transient::sizes::Sizes;

fn take_open(working: &mut [u32], transient: &mut [u32], z: Sizes, e: u32) -> Result<(), Refusal>
    requires { Entered working.old transient.old z }
    ensures { changed result working.new transient.new ≡ take_open z (table working.old transient.old) e }
{
    let s = queue::look_up_front(working, transient, z, e)?.ok_or(Refusal::QueueEmpty)?;
    let key = image::contents::key_at(working, z.n, z.w, s);
    job_delete::delete_at(working, transient, z, e, s, key)
}

fn take_sized(
    working: &mut [u32],
    transient: &mut [u32],
    z: Sizes,
    thread: usize,
) -> Result<(), Refusal>
    requires { Entered working.old transient.old z }
    ensures { changed result working.new transient.new ≡ take_sized thread z (table working.old transient.old) }
{
    let e = jobs::way::way_in(transient, z, thread, false)?;
    take_open(working, transient, z, e)
}

// Takes the front away, in the open operation of the thread.
pub fn take(
    working: &mut [u32],
    persistent: &[u32],
    transient: &mut [u32],
    thread: u32,
) -> Result<(), Refusal>
    ensures { outcome result working.new persistent.now transient.new ≡ take_entry (store working.old persistent.now transient.old) thread }
{
    transient::entry::check(working, persistent, transient)?;
    let z = transient::sizes::read_sizes(working, transient);
    take_sized(working, transient, z, thread as usize)
}
