// Set: another value for a live job.
#![tactic(auto, using(crate::specs::Exits::laws))]

ghost use Rattle.std.specs.Prelude.{◌≡◌};
ghost use Rattle.transient.specs.Store.{store, table, sizes_of, outcome};
ghost use Rattle.transient.specs.Calls.{changed};
ghost use Rattle.transient.specs.Requires.{Entered};
ghost use Rattle.table.specs.Requires.{SlotValue};
ghost use Rattle.jobs.specs.Job.{job};
ghost use Rattle.jobs.specs.Requires.{Valued, Held};
ghost use Rattle.job_set.specs.Set.{same_value, set_live, set_job};
ghost use Rattle.job_set.specs.Stages.{rewritten, resaved, renewed, set_opened, set_sized};

use image::header::Header;
use image::name::Name;
use reply::Refusal;
use transient::sizes::Sizes;

fn rewrite(
    working: &mut [u32],
    transient: &mut [u32],
    z: Sizes,
    e: u32,
    s: usize,
    value: &[u32],
) -> Result<(), Refusal>
    requires { Held working.old transient.old z s value.now }
    ensures { changed result working.new transient.new ≡ rewritten z (table working.old transient.old) e s value.now }
{
    table::fill::set_value(working, z, s, value);
    transient::lists::set_waiting(transient, z, e, s);
    Ok(())
}

// Does slot s hold this value?
#[tactic(auto, using(crate::specs::Same::comparing))]
fn same_value(working: &[u32], z: Sizes, s: usize, value: &[u32]) -> bool
    requires { SlotValue working.now z s value.now }
    ensures { result ≡ same_value z working.now s value.now }
{
    let first = image::contents::contents_at(z.n, z.w, s) + 1;
    let words = z.w - 1;
    &value[..words] == &working[first..first + words]
}

// No room for a new version: the value that slot s holds is accepted, and nothing changes.
fn resave(working: &[u32], z: Sizes, s: usize, value: &[u32]) -> Result<(), Refusal>
    requires { SlotValue working.now z s value.now }
    ensures { result ≡ resaved z working.now s value.now }
{
    if same_value(working, z, s, value) {
        Ok(())
    } else {
        Err(Refusal::Full)
    }
}

// The new version takes a free slot, and the old one, in slot s, is retired in e.
fn update(
    working: &mut [u32],
    transient: &mut [u32],
    z: Sizes,
    e: u32,
    s: usize,
    key: u32,
    value: &[u32],
) -> Result<(), Refusal>
    requires { Held working.old transient.old z s value.now }
    ensures { changed result working.new transient.new ≡ renewed z (table working.old transient.old) e s (job key value.now) }
{
    match table::find::room_for_two(working, transient, z) {
        Some(f) => {
            let h = Header::updated(e, image::header::header_at(working, z.n, s));
            table::fill::fill(working, z, f, h, key, value);
            let name = Name {
                board: h.board,
                key,
            };
            jobs::supersede::note_superseded(transient, z, e, s, f, name);
            Ok(())
        }
        None => resave(working, z, s, value),
    }
}

fn set_live(
    working: &mut [u32],
    transient: &mut [u32],
    z: Sizes,
    e: u32,
    s: usize,
    key: u32,
    value: &[u32],
) -> Result<(), Refusal>
    requires { Held working.old transient.old z s value.now }
    ensures { changed result working.new transient.new ≡ set_live z (table working.old transient.old) e s (job key value.now) }
{
    if image::header::header_at(working, z.n, s).epoch == e {
        rewrite(working, transient, z, e, s, value)
    } else {
        update(working, transient, z, e, s, key, value)
    }
}

// With an operation open: key and value have been judged.
pub fn set_open(
    working: &mut [u32],
    transient: &mut [u32],
    z: Sizes,
    e: u32,
    key: u32,
    value: &[u32],
) -> Result<(), Refusal>
    requires { Valued working.old transient.old z value.now }
    ensures { changed result working.new transient.new ≡ set_opened z (table working.old transient.old) (job key value.now) e }
{
    let value = &value[..];
    // Sizes made anew are loaded one by one; handed on, two at once, and that waits for the stores before.
    let anew = Sizes {
        n: z.n,
        w: z.w,
        t: z.t,
    };
    let s = table::find::look_up(working, transient, anew, key, e)?.ok_or(Refusal::NoJob)?;
    set_live(working, transient, z, e, s, key, value)
}

fn set_sized(
    working: &mut [u32],
    transient: &mut [u32],
    z: Sizes,
    thread: usize,
    key: u32,
    value: &[u32],
) -> Result<(), Refusal>
    requires { Entered working.old transient.old z }
    ensures { changed result working.new transient.new ≡ set_sized thread (job key value.now) z (table working.old transient.old) }
{
    let bad = jobs::way::bad_job(z, key, value);
    let e = jobs::way::way_in(transient, z, thread, bad)?;
    set_open(working, transient, z, e, key, value)
}

// Gives a live job another value, in the open operation of the thread.
pub fn set(
    working: &mut [u32],
    persistent: &[u32],
    transient: &mut [u32],
    thread: u32,
    key: u32,
    value: &[u32],
) -> Result<(), Refusal>
    ensures { outcome result working.new persistent.now transient.new ≡ set_job (store working.old persistent.now transient.old) thread (job key value.now) }
{
    transient::entry::check(working, persistent, transient)?;
    let z = transient::sizes::read_sizes(working, transient);
    set_sized(working, transient, z, thread as usize, key, value)
}
