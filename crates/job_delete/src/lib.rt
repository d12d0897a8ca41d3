// Delete: a job ends, at once or behind an anti-payload.
#![tactic(auto, using(crate::specs::Exits::laws))]

ghost use Rattle.std.specs.Prelude.{◌≡◌};
ghost use Rattle.transient.specs.Store.{store, table, outcome};
ghost use Rattle.transient.specs.Calls.{changed};
ghost use Rattle.transient.specs.Requires.{Entered};
ghost use Rattle.jobs.specs.Requires.{Reached};
ghost use Rattle.job_delete.specs.Delete.{delete_at, delete_job};
ghost use Rattle.job_delete.specs.Stages.{freed_at, turned, covered, delete_open, delete_sized};

use image::header::Header;
use image::name::Name;
use reply::Refusal;
use transient::sizes::Sizes;

// An ALLOC of this epoch: no other epoch knows it, so its slot is free at once.
fn free_now(
    working: &mut [u32],
    transient: &mut [u32],
    z: Sizes,
    e: u32,
    s: usize,
    key: u32,
) -> Result<(), Refusal>
    requires { Reached working.old transient.old z s }
    ensures { changed result working.new transient.new ≡ freed_at z (table working.old transient.old) e s key }
{
    let board = image::header::board_at(working, z.n, s);
    image::header::set_header(working, z.n, s, Header::free());
    table::fill::note_freed(transient, z, e, s, Name { board, key });
    Ok(())
}

// An UPDATE of this epoch becomes the anti-payload, contents kept.
fn turn(
    working: &mut [u32],
    transient: &mut [u32],
    z: Sizes,
    e: u32,
    s: usize,
) -> Result<(), Refusal>
    requires { Reached working.old transient.old z s }
    ensures { changed result working.new transient.new ≡ turned z (table working.old transient.old) e s }
{
    let old = image::header::header_at(working, z.n, s);
    image::header::set_header(working, z.n, s, Header::anti(e, old));
    transient::lists::set_waiting(transient, z, e, s);
    Ok(())
}

// The anti-payload takes a free slot, and the payload in slot s is retired in e.
fn cover(
    working: &mut [u32],
    transient: &mut [u32],
    z: Sizes,
    e: u32,
    s: usize,
    key: u32,
) -> Result<(), Refusal>
    requires { Reached working.old transient.old z s }
    ensures { changed result working.new transient.new ≡ covered z (table working.old transient.old) e s key }
{
    let f = table::find::room_for_one(working, transient, z).ok_or(Refusal::Full)?;
    let h = Header::anti(e, image::header::header_at(working, z.n, s));
    table::fill::fill_zeros(working, z, f, h, key);
    let name = Name {
        board: h.board,
        key,
    };
    jobs::supersede::note_superseded(transient, z, e, s, f, name);
    Ok(())
}

pub fn delete_at(
    working: &mut [u32],
    transient: &mut [u32],
    z: Sizes,
    e: u32,
    s: usize,
    key: u32,
) -> Result<(), Refusal>
    requires { Reached working.old transient.old z s }
    ensures { changed result working.new transient.new ≡ delete_at z (table working.old transient.old) e s key }
{
    let h = image::header::header_at(working, z.n, s);
    if h.epoch == e {
        if h.kind == Header::ALLOC {
            return free_now(working, transient, z, e, s, key);
        }
        return turn(working, transient, z, e, s);
    }
    cover(working, transient, z, e, s, key)
}

// With an operation open: the key has been judged.
pub fn delete_open(
    working: &mut [u32],
    transient: &mut [u32],
    z: Sizes,
    e: u32,
    key: u32,
) -> Result<(), Refusal>
    requires { Entered working.old transient.old z }
    ensures { changed result working.new transient.new ≡ delete_open z (table working.old transient.old) key e }
{
    let s = table::find::look_up(working, transient, z, key, e)?.ok_or(Refusal::NoJob)?;
    delete_at(working, transient, z, e, s, key)
}

fn delete_sized(
    working: &mut [u32],
    transient: &mut [u32],
    z: Sizes,
    thread: usize,
    key: u32,
) -> Result<(), Refusal>
    requires { Entered working.old transient.old z }
    ensures { changed result working.new transient.new ≡ delete_sized thread key z (table working.old transient.old) }
{
    let e = jobs::way::way_in(transient, z, thread, key == 0)?;
    delete_open(working, transient, z, e, key)
}

// Ends a live job, in the open operation of the thread.
pub fn delete(
    working: &mut [u32],
    persistent: &[u32],
    transient: &mut [u32],
    thread: u32,
    key: u32,
) -> Result<(), Refusal>
    ensures { outcome result working.new persistent.now transient.new ≡ delete_job (store working.old persistent.now transient.old) thread key }
{
    transient::entry::check(working, persistent, transient)?;
    let z = transient::sizes::read_sizes(working, transient);
    delete_sized(working, transient, z, thread as usize, key)
}
