// Append: an entry at the back of the queue, under the next order number.
#![tactic(auto, using(crate::specs::Exits::laws))]

ghost use Rattle.std.specs.Prelude.{◌≡◌, ◌≤◌, length};
ghost use Rattle.transient.specs.Layout.{head_words};
ghost use Rattle.transient.specs.Store.{store, table, sizes_of, outcome};
ghost use Rattle.transient.specs.Calls.{changed};
ghost use Rattle.transient.specs.Requires.{Entered};
ghost use Rattle.table.specs.Find.{room};
ghost use Rattle.jobs.specs.Requires.{Valued, Wide};
ghost use Rattle.queue_append.specs.Append.{append_open, append_entry};
ghost use Rattle.queue_append.specs.Stages.{bad_value, no_number, append_at, append_in, append_sized, given, append_given};
ghost use Rattle.queue_append.specs.Requires.{Ready, Numbered};

use image::name::Name;
use reply::Refusal;
use transient::sizes::Sizes;

// Is the value's length wrong?
fn bad_value(z: Sizes, value: &[u32]) -> bool
    requires { Wide z }
    ensures { result ≡ bad_value z value.now }
{
    value.len() != z.w - 1
}

// Is no uid left, or no order number?
fn no_number(transient: &[u32]) -> bool
    requires { head_words ≤ length transient.now }
    ensures { result ≡ no_number transient.now }
{
    if image::shape::MOST_NUMBER < transient::notes::next_uid(transient) {
        return true;
    }
    image::shape::MOST_NUMBER < transient::notes::next_order(transient)
}

fn append_at(
    working: &mut [u32],
    transient: &mut [u32],
    z: Sizes,
    e: u32,
    s: usize,
    value: &[u32],
) -> Result<(), Refusal>
    requires { Numbered working.old transient.old z s value.now }
    ensures { changed result working.new transient.new ≡ append_at z (table working.old transient.old) e s value.now }
{
    let order = transient::notes::next_order(transient);
    jobs::make::make_at(working, transient, z, e, s, Name::entry(order), value);
    transient::notes::set_next_order(transient, order + 1);
    Ok(())
}

fn append_in_room(
    working: &mut [u32],
    transient: &mut [u32],
    z: Sizes,
    e: u32,
    value: &[u32],
) -> Result<(), Refusal>
    requires { Ready working.old transient.old z value.now }
    ensures { changed result working.new transient.new ≡ append_in (room z (table working.old transient.old) 2) z (table working.old transient.old) e value.now }
{
    let s = table::find::room_for_two(working, transient, z).ok_or(Refusal::Full)?;
    append_at(working, transient, z, e, s, value)
}

fn append_open(
    working: &mut [u32],
    transient: &mut [u32],
    z: Sizes,
    e: u32,
    value: &[u32],
) -> Result<(), Refusal>
    requires { Valued working.old transient.old z value.now }
    ensures { changed result working.new transient.new ≡ append_open z (table working.old transient.old) value.now e }
{
    if queue::any_newer(working, transient, z, e) {
        return Err(Refusal::Newer);
    }
    if no_number(transient) {
        return Err(Refusal::NoUid);
    }
    append_in_room(working, transient, z, e, value)
}

fn append_sized(
    working: &mut [u32],
    transient: &mut [u32],
    z: Sizes,
    thread: usize,
    value: &[u32],
) -> Result<(), Refusal>
    requires { Entered working.old transient.old z }
    ensures { changed result working.new transient.new ≡ append_sized thread value.now z (table working.old transient.old) }
{
    let bad = bad_value(z, value);
    let e = jobs::way::way_in(transient, z, thread, bad)?;
    append_open(working, transient, z, e, value)
}

// The number that the entry gets is the next one as it stood before.
fn append_given(
    working: &mut [u32],
    transient: &mut [u32],
    thread: u32,
    value: &[u32],
) -> Result<u32, Refusal>
    requires { Entered working.old transient.old (sizes_of (table working.old transient.old)) }
    ensures { given result working.new transient.new ≡ append_given thread value.now (table working.old transient.old) }
{
    let order = transient::notes::next_order(transient);
    let z = transient::sizes::read_sizes(working, transient);
    append_sized(working, transient, z, thread as usize, value)?;
    Ok(order)
}

// Appends an entry in the open operation of the thread.
pub fn append_entry(
    working: &mut [u32],
    persistent: &[u32],
    transient: &mut [u32],
    thread: u32,
    value: &[u32],
) -> Result<u32, Refusal>
    ensures { outcome result working.new persistent.now transient.new ≡ append_entry (store working.old persistent.now transient.old) thread value.now }
{
    transient::entry::check(working, persistent, transient)?;
    append_given(working, transient, thread, value)
}
