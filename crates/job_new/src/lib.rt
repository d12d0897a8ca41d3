// New: a job that was not there.
#![tactic(auto, using(crate::specs::Exits::laws))]

ghost use Rattle.std.specs.Prelude.{◌≡◌};
ghost use Rattle.transient.specs.Store.{store, table, sizes_of, outcome};
ghost use Rattle.transient.specs.Calls.{changed};
ghost use Rattle.transient.specs.Requires.{Entered};
ghost use Rattle.table.specs.Find.{room};
ghost use Rattle.jobs.specs.Job.{job};
ghost use Rattle.jobs.specs.Requires.{Valued, Placed};
ghost use Rattle.job_new.specs.New.{new_absent, new_job};
ghost use Rattle.job_new.specs.Stages.{new_at, new_in, new_open, new_sized};
ghost use Rattle.job_new.specs.Requires.{Ready};

use image::name::Name;
use reply::Refusal;
use transient::sizes::Sizes;

fn new_at(
    working: &mut [u32],
    transient: &mut [u32],
    z: Sizes,
    e: u32,
    s: usize,
    key: u32,
    value: &[u32],
) -> Result<(), Refusal>
    requires { Placed working.old transient.old z s value.now }
    ensures { changed result working.new transient.new ≡ new_at z (table working.old transient.old) e s (job key value.now) }
{
    let anew = Sizes {
        n: z.n,
        w: z.w,
        t: z.t,
    };
    jobs::make::make_at(working, transient, anew, e, s, Name::job(key), value);
    Ok(())
}

fn new_in_room(
    working: &mut [u32],
    transient: &mut [u32],
    z: Sizes,
    e: u32,
    key: u32,
    value: &[u32],
) -> Result<(), Refusal>
    requires { Ready working.old transient.old z value.now }
    ensures { changed result working.new transient.new ≡ new_in (room z (table working.old transient.old) 2) z (table working.old transient.old) e (job key value.now) }
{
    let s = table::find::room_for_two(working, transient, z).ok_or(Refusal::Full)?;
    new_at(working, transient, z, e, s, key, value)
}

fn new_absent(
    working: &mut [u32],
    transient: &mut [u32],
    z: Sizes,
    e: u32,
    key: u32,
    value: &[u32],
) -> Result<(), Refusal>
    requires { Valued working.old transient.old z value.now }
    ensures { changed result working.new transient.new ≡ new_absent z (table working.old transient.old) e (job key value.now) }
{
    if image::shape::MOST_NUMBER < transient::notes::next_uid(transient) {
        return Err(Refusal::NoUid);
    }
    new_in_room(working, transient, z, e, key, value)
}

// With an operation open: key and value have been judged.
pub fn new_open(
    working: &mut [u32],
    transient: &mut [u32],
    z: Sizes,
    e: u32,
    key: u32,
    value: &[u32],
) -> Result<(), Refusal>
    requires { Valued working.old transient.old z value.now }
    ensures { changed result working.new transient.new ≡ new_open z (table working.old transient.old) (job key value.now) e }
{
    let value = &value[..];
    // Sizes made anew are loaded one by one; handed on, two at once, and that waits for the stores before.
    let anew = Sizes {
        n: z.n,
        w: z.w,
        t: z.t,
    };
    match table::find::look_up(working, transient, anew, key, e)? {
        Some(_) => Err(Refusal::JobExists),
        None => new_absent(working, transient, z, e, key, value),
    }
}

fn new_sized(
    working: &mut [u32],
    transient: &mut [u32],
    z: Sizes,
    thread: usize,
    key: u32,
    value: &[u32],
) -> Result<(), Refusal>
    requires { Entered working.old transient.old z }
    ensures { changed result working.new transient.new ≡ new_sized thread (job key value.now) z (table working.old transient.old) }
{
    let bad = jobs::way::bad_job(z, key, value);
    let e = jobs::way::way_in(transient, z, thread, bad)?;
    new_open(working, transient, z, e, key, value)
}

// Makes a job in the open operation of the thread.
pub fn new(
    working: &mut [u32],
    persistent: &[u32],
    transient: &mut [u32],
    thread: u32,
    key: u32,
    value: &[u32],
) -> Result<(), Refusal>
    ensures { outcome result working.new persistent.now transient.new ≡ new_job (store working.old persistent.now transient.old) thread (job key value.now) }
{
    transient::entry::check(working, persistent, transient)?;
    let z = transient::sizes::read_sizes(working, transient);
    new_sized(working, transient, z, thread as usize, key, value)
}
