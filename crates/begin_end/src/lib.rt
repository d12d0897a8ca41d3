// Begin and end: a thread's operation.
#![tactic(auto, using(crate::specs::Exits::laws))]

ghost use Rattle.std.specs.Prelude.{◌≡◌};
ghost use Rattle.transient.specs.Store.{store, table, outcome};
ghost use Rattle.transient.specs.Calls.{changed};
ghost use Rattle.transient.specs.Requires.{Entered};
ghost use Rattle.begin_end.specs.Operation.{begin, end};
ghost use Rattle.begin_end.specs.Stages.{begin_sized, end_sized};

use reply::Refusal;
use transient::sizes::Sizes;

fn begin_sized(
    working: &[u32],
    transient: &mut [u32],
    z: Sizes,
    thread: usize,
) -> Result<(), Refusal>
    requires { Entered working.now transient.old z }
    ensures { changed result working.now transient.new ≡ begin_sized thread z (table working.now transient.old) }
{
    if z.t <= thread {
        return Err(Refusal::NoThread);
    }
    if transient::notes::open_epoch(transient, z, thread) != 0 {
        return Err(Refusal::AlreadyOpen);
    }
    transient::notes::set_open(transient, z, thread, image::shape::clock(working));
    Ok(())
}

fn end_sized(working: &[u32], transient: &mut [u32], z: Sizes, thread: usize) -> Result<(), Refusal>
    requires { Entered working.now transient.old z }
    ensures { changed result working.now transient.new ≡ end_sized thread z (table working.now transient.old) }
{
    let _ = jobs::way::way_in(transient, z, thread, false)?;
    transient::notes::set_open(transient, z, thread, 0);
    Ok(())
}

// Opens the thread's operation in the clock's epoch.
pub fn begin(
    working: &[u32],
    persistent: &[u32],
    transient: &mut [u32],
    thread: u32,
) -> Result<(), Refusal>
    ensures { outcome result working.now persistent.now transient.new ≡ begin (store working.now persistent.now transient.old) thread }
{
    transient::entry::check(working, persistent, transient)?;
    let z = transient::sizes::read_sizes(working, transient);
    begin_sized(working, transient, z, thread as usize)
}

// Closes it.
pub fn end(
    working: &[u32],
    persistent: &[u32],
    transient: &mut [u32],
    thread: u32,
) -> Result<(), Refusal>
    ensures { outcome result working.now persistent.now transient.new ≡ end (store working.now persistent.now transient.old) thread }
{
    transient::entry::check(working, persistent, transient)?;
    let z = transient::sizes::read_sizes(working, transient);
    end_sized(working, transient, z, thread as usize)
}
