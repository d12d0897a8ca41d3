// Read: a live job's value, as a part of the working image; and the answers that look shares with it.
#![tactic(auto, using(crate::specs::Exits::values))]

ghost use Rattle.std.specs.Prelude.{◌≡◌, ◌+◌};
ghost use Rattle.image.specs.Layout.{slots_of, width_of, contents_at, value_at};
ghost use Rattle.image.specs.Requires.{Slot};
ghost use Rattle.transient.specs.Store.{store, table};
ghost use Rattle.transient.specs.Requires.{Entered};
ghost use Rattle.job_read.specs.Read.{read_sized, read_job, shown_value, read_number, read_position};
ghost use Rattle.job_read.specs.Stages.{read_open};
ghost use Rattle.job_read.specs.Requires.{Readable};

use reply::Refusal;
use transient::sizes::Sizes;

#[tactic(auto, using(crate::specs::Exits::reads))]
fn read_open(
    working: &[u32],
    transient: &[u32],
    z: Sizes,
    key: u32,
    e: u32,
) -> Result<usize, Refusal>
    requires { Entered working.now transient.now z }
    ensures { result ≡ read_open z (table working.now transient.now) key e }
{
    if e == 0 {
        return table::find::find_live(working, transient, z, key).ok_or(Refusal::NoJob);
    }
    table::find::look_up(working, transient, z, key, e)?.ok_or(Refusal::NoJob)
}

#[tactic(auto, using(crate::specs::Exits::reads))]
fn read_sized(
    working: &[u32],
    transient: &[u32],
    z: Sizes,
    thread: usize,
    key: u32,
) -> Result<usize, Refusal>
    requires { Entered working.now transient.now z }
    ensures { result ≡ read_sized thread key z (table working.now transient.now) }
{
    if z.t <= thread {
        return Err(Refusal::NoThread);
    }
    if key == 0 {
        return Err(Refusal::BadArgument);
    }
    let e = transient::notes::open_epoch(transient, z, thread);
    read_open(working, transient, z, key, e)
}

#[tactic(auto, using(crate::specs::Exits::reads))]
pub fn read_slot(
    working: &[u32],
    persistent: &[u32],
    transient: &[u32],
    thread: u32,
    key: u32,
) -> Result<usize, Refusal>
    ensures { result ≡ read_job (store working.now persistent.now transient.now) thread key }
{
    // Lent anew, the slices come in registers.
    let working = &working[..];
    let persistent = &persistent[..];
    let transient = &transient[..];
    transient::entry::check(working, persistent, transient)?;
    let z = transient::sizes::read_sizes(working, transient);
    read_sized(working, transient, z, thread as usize, key)
}

// Where the value of a slot starts.
fn value_start(working: &[u32], s: usize) -> usize
    requires { Slot working.now (slots_of working.now) (width_of working.now) s }
    ensures { result ≡ contents_at (slots_of working.now) (width_of working.now) s + 1 }
{
    let n = working[0] as usize;
    let w = working[1] as usize;
    image::contents::contents_at(n, w, s) + 1
}

fn value_at(working: &[u32], s: usize) -> &[u32]
    requires { Slot working.now (slots_of working.now) (width_of working.now) s }
    ensures { result.now ≡ value_at working.now (slots_of working.now) (width_of working.now) s }
{
    let b = value_start(working, s);
    let e = b + working[1] as usize - 1;
    &working[b..e]
}

// The value that a reading shows, as the caller's own part of the working image; empty on refusal.
pub fn shown(working: &[u32], k: Result<usize, Refusal>) -> &[u32]
    requires { Readable working.now k }
    ensures { result.now ≡ shown_value k working.now }
{
    match k {
        Ok(s) => value_at(working, s),
        Err(_) => &working[..0],
    }
}

// The number of a reading's refusal, 0 for none.
pub fn reading_number(k: Result<usize, Refusal>) -> u32
    ensures { result ≡ read_number k }
{
    match k {
        Ok(_) => 0,
        Err(r) => u32::from(r),
    }
}

// For C, which cannot be given a part: where the value starts in the working image, or 2^32 plus the refusal.
pub fn reading_position(working: &[u32], k: Result<usize, Refusal>) -> u64
    requires { Readable working.now k }
    ensures { result ≡ read_position k working.now }
{
    match k {
        Ok(s) => value_start(working, s) as u64,
        Err(r) => reply::declined(r),
    }
}

// A live job's value, as the caller's own part of the working image; empty on refusal.
pub fn read<'a>(
    working: &'a [u32],
    persistent: &[u32],
    transient: &[u32],
    thread: u32,
    key: u32,
) -> &'a [u32]
    ensures { result.now ≡ shown_value (read_job (store working.now persistent.now transient.now) thread key) working.now }
{
    shown(
        working,
        read_slot(working, persistent, transient, thread, key),
    )
}

// The number of read's refusal, 0 for none.
pub fn read_refusal(
    working: &[u32],
    persistent: &[u32],
    transient: &[u32],
    thread: u32,
    key: u32,
) -> u32
    ensures { result ≡ read_number (read_job (store working.now persistent.now transient.now) thread key) }
{
    reading_number(read_slot(working, persistent, transient, thread, key))
}

// For C: where the value starts in the working image, or 2^32 plus the refusal.
pub fn read_position(
    working: &[u32],
    persistent: &[u32],
    transient: &[u32],
    thread: u32,
    key: u32,
) -> u64
    ensures { result ≡ read_position (read_job (store working.now persistent.now transient.now) thread key) working.now }
{
    reading_position(
        working,
        read_slot(working, persistent, transient, thread, key),
    )
}
