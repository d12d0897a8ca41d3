// Searches over the table.
#![tactic(auto, using(crate::specs::Exits::finds))]

ghost use Rattle.std.specs.Prelude.{◌≡◌, ◌+◌};
ghost use Rattle.search.specs.Ring.{first_round};
ghost use Rattle.image.specs.Name.{job_name, name_at, same_name};
ghost use Rattle.image.specs.Requires.{Slot, HeaderFits};
ghost use Rattle.transient.specs.Store.{table};
ghost use Rattle.transient.specs.Requires.{Shaped, ShapedSlot, Entered};
ghost use Rattle.table.specs.Find.{newer_at, live_at, live_slot, lookup, free_at, room};
ghost use Rattle.table.specs.Requires.{job_at, has_key, key_from, OnChain, Keyed, Ring, RingStart, next_slot, sooner};

use image::header::Header;
use image::name::Name;
use reply::Refusal;
use transient::sizes::Sizes;

#[tactic(auto, using(crate::specs::KeyExits::keys))]
fn has_key(working: &[u32], z: Sizes, key: u32, s: usize) -> bool
    requires { Slot working.now z.n z.w s }
    ensures { result ≡ has_key z working.now key s }
{
    image::contents::key_at(working, z.n, z.w, s) == key
}

// The first slot with the key on the chain of its job, from slot `from` of it on, or n.
#[tactic(auto, using(crate::specs::KeyExits::keys))]
fn key_on(working: &[u32], transient: &[u32], z: Sizes, key: u32, from: usize) -> usize
    requires { OnChain working.now transient.now z key from }
    ensures { result ≡ key_from z (table working.now transient.now) key from }
{
    let mut s = from;
    while s < z.n {
        if has_key(working, z, key, s) {
            return s;
        }
        s = index::next_on(transient, z, s);
    }
    s
}

// The first of all.
#[tactic(auto, using(crate::specs::KeyExits::keys))]
fn key_first(working: &[u32], transient: &[u32], z: Sizes, key: u32) -> usize
    requires { Shaped working.now transient.now z }
    ensures { result ≡ key_from z (table working.now transient.now) key 0 }
{
    let first = index::first_on(transient, z, Name::job(key));
    key_on(working, transient, z, key, first)
}

// The one that follows slot s.
#[tactic(auto, using(crate::specs::KeyExits::keys))]
fn key_next(working: &[u32], transient: &[u32], z: Sizes, key: u32, s: usize) -> usize
    requires { Keyed working.now transient.now z key s }
    ensures { result ≡ key_from z (table working.now transient.now) key (s + 1) }
{
    let next = index::next_on(transient, z, s);
    key_on(working, transient, z, key, next)
}

// Does the slot have the name of the job of its key? Once the key is known the board is left to look at.
fn of_job(working: &[u32], z: Sizes, s: usize) -> bool
    requires { Slot working.now z.n z.w s }
    ensures { result ≡ same_name (name_at working.now z.n z.w s) (job_at z working.now s) }
{
    image::header::board_at(working, z.n, s) == Header::JOBS
}

fn newer_at(working: &[u32], z: Sizes, e: u32, s: usize) -> bool
    requires { Slot working.now z.n z.w s }
    ensures { result ≡ newer_at z working.now (job_at z working.now s) e s }
{
    if of_job(working, z, s) {
        let h = image::header::header_at(working, z.n, s);
        if h.is_filled() { e < h.epoch } else { false }
    } else {
        false
    }
}

fn live_at(working: &[u32], transient: &[u32], z: Sizes, s: usize) -> bool
    requires { ShapedSlot working.now transient.now z s }
    ensures { result ≡ live_at z (table working.now transient.now) (job_at z working.now s) s }
{
    if of_job(working, z, s) {
        let h = image::header::header_at(working, z.n, s);
        if h.is_payload() {
            transient::notes::retired_in(transient, z, s) == 0
        } else {
            false
        }
    } else {
        false
    }
}

// The lowest live slot of a key.
pub fn find_live(working: &[u32], transient: &[u32], z: Sizes, key: u32) -> Option<usize>
    requires { Shaped working.now transient.now z }
    ensures { result ≡ live_slot z (table working.now transient.now) (job_name key) }
{
    let mut s = key_first(working, transient, z, key);
    while s < z.n {
        if live_at(working, transient, z, s) {
            return Some(s);
        }
        s = key_next(working, transient, z, key, s);
    }
    None
}

// The first live slot up to s, where `live` is the first one below s.
fn live_up_to(
    working: &[u32],
    transient: &[u32],
    z: Sizes,
    s: usize,
    live: Option<usize>,
) -> Option<usize>
    requires { ShapedSlot working.now transient.now z s }
    ensures { result ≡ sooner (live_at z (table working.now transient.now) (job_at z working.now s) s) s live }
{
    match live {
        Some(t) => Some(t),
        None => {
            if live_at(working, transient, z, s) {
                Some(s)
            } else {
                None
            }
        }
    }
}

// Both questions in one walk up the chain, from one slot with the key to the next.
pub fn look_up(
    working: &[u32],
    transient: &[u32],
    z: Sizes,
    key: u32,
    e: u32,
) -> Result<Option<usize>, Refusal>
    requires { Shaped working.now transient.now z }
    ensures { result ≡ lookup z (table working.now transient.now) (job_name key) e }
{
    // Lent anew, the slices come in registers; one that is only handed on comes through memory.
    let working = &working[..];
    let transient = &transient[..];
    let mut live = None;
    let mut s = key_first(working, transient, z, key);
    while s < z.n {
        if newer_at(working, z, e, s) {
            return Err(Refusal::Newer);
        }
        live = live_up_to(working, transient, z, s, live);
        s = key_next(working, transient, z, key, s);
    }
    Ok(live)
}

fn free_at(working: &[u32], n: usize, s: usize) -> bool
    requires { HeaderFits working.now n s }
    ensures { result ≡ free_at working.now s }
{
    let h = image::header::header_at(working, n, s);
    if h.is_filled() { false } else { true }
}

// The slot that follows s, round past the end.
fn next_slot(n: usize, s: usize) -> usize
    requires { Ring n s }
    ensures { result ≡ next_slot n s }
{
    if s + 1 < n { s + 1 } else { 0 }
}

// The first free slot met going up from the slot after `last`, round past the end, within `steps`.
pub fn free_slot(working: &[u32], n: usize, last: usize, steps: usize) -> Option<usize>
    requires { RingStart working.now n last steps }
    ensures { result ≡ first_round (free_at working.now) n last steps }
{
    let mut k = 0;
    let mut s = last;
    let got = loop {
        if steps <= k {
            break None;
        }
        s = next_slot(n, s);
        if free_at(working, n, s) {
            break Some(s);
        }
        k += 1;
    };
    got
}

// The slot to take where one free slot is enough.
pub fn room_for_one(working: &[u32], transient: &[u32], z: Sizes) -> Option<usize>
    requires { Entered working.now transient.now z }
    ensures { result ≡ room z (table working.now transient.now) 1 }
{
    free_slot(working, z.n, transient::notes::last_taken(transient), z.n)
}

// The slot to take where two must be free, so that a full board can still be emptied.
pub fn room_for_two(working: &[u32], transient: &[u32], z: Sizes) -> Option<usize>
    requires { Entered working.now transient.now z }
    ensures { result ≡ room z (table working.now transient.now) 2 }
{
    let s = free_slot(working, z.n, transient::notes::last_taken(transient), z.n)?;
    free_slot(working, z.n, s, z.n - 1)?;
    Some(s)
}
