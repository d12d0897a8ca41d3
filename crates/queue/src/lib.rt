// The hand-over queue (02, No. 3): what its calls look up in the working table.
#![tactic(auto, using(crate::specs::Exits::laws))]

ghost use Rattle.std.specs.Prelude.{◌≡◌};
ghost use Rattle.search.specs.Some.{any_of};
ghost use Rattle.image.specs.Requires.{Slot, HeaderFits};
ghost use Rattle.transient.specs.Store.{table};
ghost use Rattle.transient.specs.Requires.{Shaped, ShapedSlot};
ghost use Rattle.queue.specs.Front.{entry_newer_at, entry_at, front_lookup};
ghost use Rattle.queue.specs.Requires.{nearer_at, stops_at, next_stop, best_at, slot_of, Walks};

use image::header::Header;
use reply::Refusal;
use transient::sizes::Sizes;

// The board is looked at first, as most slots hold a job or nothing; then the epoch, as most entries are not newer. With no
// operation open nothing is.
fn newer_at(working: &[u32], n: usize, e: u32, s: usize) -> bool
    requires { HeaderFits working.now n s }
    ensures { result ≡ entry_newer_at working.now e s }
{
    let h = image::header::header_at(working, n, s);
    if h.board == Header::QUEUE {
        if e < h.epoch {
            if e == 0 {
                return false;
            }
            h.is_filled()
        } else {
            false
        }
    } else {
        false
    }
}

// A live entry of the queue?
fn entry_at(working: &[u32], transient: &[u32], z: Sizes, s: usize) -> bool
    requires { ShapedSlot working.now transient.now z s }
    ensures { result ≡ entry_at z (table working.now transient.now) s }
{
    let held = image::header::header_at(working, z.n, s);
    if held.board == Header::QUEUE {
        if held.is_payload() {
            transient::notes::retired_in(transient, z, s) == 0
        } else {
            false
        }
    } else {
        false
    }
}

// Does a later epoch have any entry?
pub fn any_newer(working: &[u32], transient: &[u32], z: Sizes, e: u32) -> bool
    requires { Shaped working.now transient.now z }
    ensures { result ≡ any_of (entry_newer_at working.now e) z.n }
{
    for s in 0..z.n {
        if newer_at(working, z.n, e, s) {
            return true;
        }
    }
    false
}

// The front so far: its slot and its order number.
#[derive(Clone, Copy)]
pub struct Best {
    pub slot: usize,
    pub order: u32,
}

// An entry in front of the best so far? The number is looked at first, as most entries stand further back.
fn nearer_at(working: &[u32], transient: &[u32], z: Sizes, best: Option<Best>, s: usize) -> bool
    requires { ShapedSlot working.now transient.now z s }
    ensures { result ≡ nearer_at z (table working.now transient.now) best s }
{
    if let Some(b) = best {
        if b.order <= image::contents::key_at(working, z.n, z.w, s) {
            return false;
        }
    }
    entry_at(working, transient, z, s)
}

// Does a walk up the table stop here: at an entry of a later epoch, or at one in front of the best so far?
fn stops_at(
    working: &[u32],
    transient: &[u32],
    z: Sizes,
    e: u32,
    best: Option<Best>,
    s: usize,
) -> bool
    requires { ShapedSlot working.now transient.now z s }
    ensures { result ≡ stops_at z (table working.now transient.now) e best s }
{
    if image::header::board_at(working, z.n, s) != Header::QUEUE {
        return false;
    }
    if newer_at(working, z.n, e, s) {
        return true;
    }
    nearer_at(working, transient, z, best, s)
}

// Where it stops first, from a slot on.
fn next_stop(
    working: &[u32],
    transient: &[u32],
    z: Sizes,
    e: u32,
    best: Option<Best>,
    from: usize,
) -> Option<usize>
    requires { Walks working.now transient.now z from }
    ensures { result ≡ next_stop z (table working.now transient.now) e best from }
{
    for s in from..z.n {
        if stops_at(working, transient, z, e, best, s) {
            return Some(s);
        }
    }
    None
}

fn best_at(working: &[u32], z: Sizes, s: usize) -> Best
    requires { Slot working.now z.n z.w s }
    ensures { result ≡ best_at z working.now s }
{
    Best {
        slot: s,
        order: image::contents::key_at(working, z.n, z.w, s),
    }
}

#[tactic(auto, using(crate::specs::Exits::walks))]
fn slot_of(best: Option<Best>) -> Option<usize>
    ensures { result ≡ slot_of best }
{
    match best {
        Some(b) => Some(b.slot),
        None => None,
    }
}

// Refusal 9, and the live entry with the smallest order number: one walk up, from each entry to the next one in front of it.
#[tactic(auto, using(crate::specs::Exits::walks))]
pub fn look_up_front(
    working: &[u32],
    transient: &[u32],
    z: Sizes,
    e: u32,
) -> Result<Option<usize>, Refusal>
    requires { Shaped working.now transient.now z }
    ensures { result ≡ front_lookup z (table working.now transient.now) e }
{
    let mut best = None;
    let mut from = 0;
    while let Some(s) = next_stop(working, transient, z, e, best, from) {
        if newer_at(working, z.n, e, s) {
            return Err(Refusal::Newer);
        }
        best = Some(best_at(working, z, s));
        from = s + 1;
    }
    Ok(slot_of(best))
}
