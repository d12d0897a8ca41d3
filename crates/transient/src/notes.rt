// The notes' readers and writers.
#![tactic(auto, using(crate::specs::Exits::laws))]

ghost use Rattle.std.specs.Prelude.{◌≡◌, ◌+◌, ◌<◌, ◌≤◌, length};
ghost use Rattle.image.specs.Layout.{most_slots};
ghost use Rattle.transient.specs.Layout.{head_words, transient_words, threads_of, threads_ok, blank, note, slots_at, last_at, next_uid_at, next_order_at, phase_at, place_at, open_epoch, retired_in, set_note, set_open, set_retired, set_place, bucket_at, link_at};
ghost use Rattle.transient.specs.Requires.{InReach, InIndex, ThreadRoom, Blanking, NoteOf, ThreadOf};

use crate::sizes::Sizes;

// Where the words of the head stand, the waiting lists at its end, and how many these are; then come the threads, the
// slots, and the index.
const SLOTS: usize = 0;

const LAST: usize = 1;

const NEXT_UID: usize = 2;

const NEXT_ORDER: usize = 3;

const PHASE: usize = 4;

const PLACE: usize = 5;

pub const LISTS: usize = 6;

pub const HEAD: usize = 70;

// Does a slice of this length hold the notes of 1 to 16 threads, for `n` slots?
pub fn threads_ok(len: usize, n: usize) -> bool
    requires { n ≤ most_slots }
    ensures { result ≡ threads_ok len n }
{
    let least = HEAD + 3 * n + 1;
    std::num::wrapping_sub_usize(len, least) < 16
}

// How many words the notes of `n` slots and `t` threads have.
pub fn transient_words(n: usize, t: usize) -> usize
    requires { InReach n t }
    ensures { result ≡ transient_words n t }
{
    HEAD + t + 3 * n
}

// How many threads a slice of this length has, for `n` slots.
pub fn threads(len: usize, n: usize) -> usize
    requires { ThreadRoom len n }
    ensures { result ≡ threads_of len n }
{
    len - (HEAD + 3 * n)
}

// For n slots, with nothing open, retired, waiting or underway.
pub fn set_blank(transient: &mut [u32], n: u32, uid: u32, order: u32)
    requires { Blanking transient.old n }
    ensures { transient.new ≡ blank (length transient.old) n uid order }
{
    let last = n - 1;
    image::contents::clear(transient);
    transient[SLOTS] = n;
    transient[LAST] = last;
    transient[NEXT_UID] = uid;
    transient[NEXT_ORDER] = order;
}

pub fn noted_slots(transient: &[u32]) -> usize
    requires { head_words ≤ length transient.now }
    ensures { result ≡ note slots_at transient.now }
{
    transient[SLOTS] as usize
}

pub fn last_taken(transient: &[u32]) -> usize
    requires { head_words ≤ length transient.now }
    ensures { result ≡ note last_at transient.now }
{
    transient[LAST] as usize
}

pub fn next_uid(transient: &[u32]) -> u32
    requires { head_words ≤ length transient.now }
    ensures { result ≡ note next_uid_at transient.now }
{
    transient[NEXT_UID]
}

pub fn next_order(transient: &[u32]) -> u32
    requires { head_words ≤ length transient.now }
    ensures { result ≡ note next_order_at transient.now }
{
    transient[NEXT_ORDER]
}

pub fn place_phase(transient: &[u32]) -> u32
    requires { head_words ≤ length transient.now }
    ensures { result ≡ note phase_at transient.now }
{
    transient[PHASE]
}

pub fn place_slot(transient: &[u32]) -> usize
    requires { head_words ≤ length transient.now }
    ensures { result ≡ note place_at transient.now }
{
    transient[PLACE] as usize
}

pub fn open_epoch(transient: &[u32], z: Sizes, thread: usize) -> u32
    requires { ThreadOf transient.now z thread }
    ensures { result ≡ open_epoch transient.now thread }
{
    transient[HEAD + thread]
}

pub fn retired_in(transient: &[u32], z: Sizes, s: usize) -> u32
    requires { NoteOf transient.now z s }
    ensures { result ≡ retired_in z transient.now s }
{
    transient[HEAD + z.t + s]
}

pub fn set_last(transient: &mut [u32], s: u32)
    requires { head_words ≤ length transient.old }
    ensures { transient.new ≡ set_note last_at transient.old s }
{
    transient[LAST] = s;
}

pub fn set_next_uid(transient: &mut [u32], uid: u32)
    requires { head_words ≤ length transient.old }
    ensures { transient.new ≡ set_note next_uid_at transient.old uid }
{
    transient[NEXT_UID] = uid;
}

pub fn set_next_order(transient: &mut [u32], order: u32)
    requires { head_words ≤ length transient.old }
    ensures { transient.new ≡ set_note next_order_at transient.old order }
{
    transient[NEXT_ORDER] = order;
}

pub fn set_open(transient: &mut [u32], z: Sizes, thread: usize, e: u32)
    requires { ThreadOf transient.old z thread }
    ensures { transient.new ≡ set_open transient.old thread e }
{
    transient[HEAD + thread] = e;
}

pub fn set_retired(transient: &mut [u32], z: Sizes, s: usize, e: u32)
    requires { NoteOf transient.old z s }
    ensures { transient.new ≡ set_retired z transient.old s e }
{
    transient[HEAD + z.t + s] = e;
}

pub fn set_place(transient: &mut [u32], phase: u32, slot: u32)
    requires { head_words ≤ length transient.old }
    ensures { transient.new ≡ set_place transient.old phase slot }
{
    transient[PHASE] = phase;
    transient[PLACE] = slot;
}

// Where the index has the link to the first slot of a bucket's chain.
pub fn bucket_at(z: Sizes, b: usize) -> usize
    requires { InIndex z b }
    ensures { result ≡ bucket_at z b }
{
    HEAD + z.t + z.n + b
}

// Where it has slot s's link to the next one.
pub fn link_at(z: Sizes, s: usize) -> usize
    requires { InIndex z s }
    ensures { result ≡ link_at z s }
{
    HEAD + z.t + 2 * z.n + s
}
