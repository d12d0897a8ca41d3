// One step of recover: check, free one header, or finish.
#![tactic(auto, using(crate::specs::Exits::steps))]

ghost use Rattle.std.specs.Prelude.{◌≡◌, not, length};
ghost use Rattle.search.specs.Largest.{raised};
ghost use Rattle.image.specs.Layout.{queue_board, key_at};
ghost use Rattle.transient.specs.Store.{store, outcome};
ghost use Rattle.survival.specs.Survivors.{survivor, survives_on};
ghost use Rattle.recovery.specs.Recover.{anti_at, stale, next_freed, freeing, recover};
ghost use Rattle.survival.specs.Requires.{FlagAt, HeaderOf, Marked, SlotMarked};
ghost use Rattle.recovery.specs.Requires.{uid_of, recover_entry_check, anti_up_to, finished, numbers_of, notes_over, Numbered, Noting, Finishing, Judged, recover_sized};

use image::header::Header;
use reply::Refusal;
use transient::sizes::Sizes;

// One recover call's answer: "went on", "done", or a refusal.
#[derive(Clone, Copy, Debug, PartialEq, Eq)]
pub enum Recovery {
    WentOn,
    Done,
}

fn anti_at(img: &[u32], n: usize, s: usize) -> bool
    requires { HeaderOf img.now n s }
    ensures { result ≡ anti_at img.now s }
{
    survival::kept_anti_at(img, n, image::shape::clock(img), s)
}

fn dies_at(img: &[u32], flags: &[bool; 1024], n: usize, s: usize) -> bool
    requires { FlagAt img.now n s flags.now }
    ensures { result ≡ not (survivor img.now n s) }
{
    if flags[s] { false } else { true }
}

// A header that is not zeros and that nothing needs: what is left of one that counts as free is among these. The flag is looked at
// first: on a full board most slots survive.
fn stale_at(img: &[u32], flags: &[bool; 1024], n: usize, s: usize) -> bool
    requires { FlagAt img.now n s flags.now }
    ensures { result ≡ stale img.now n s }
{
    if dies_at(img, flags, n, s) {
        if image::header::header_at(img, n, s).is_blank() {
            return false;
        }
        if anti_at(img, n, s) { false } else { true }
    } else {
        false
    }
}

// The first kept DELETE of those up to slot `s`, after the first of those below it.
fn anti_up_to(img: &[u32], n: usize, s: usize, first: Option<usize>) -> Option<usize>
    requires { HeaderOf img.now n s }
    ensures { result ≡ anti_up_to img.now s first }
{
    match first {
        Some(t) => Some(t),
        None => {
            if anti_at(img, n, s) {
                return Some(s);
            }
            None
        }
    }
}

// The header to free next: those that nothing needs first, then the kept DELETEs, which cover payloads until these are gone. A survivor
// is neither.
#[tactic(auto, using(crate::specs::Exits::frees))]
fn next_freed(img: &[u32], flags: &[bool; 1024], n: usize) -> Option<usize>
    requires { Marked img.now n flags.now }
    ensures { result ≡ next_freed img.now n }
{
    let mut anti = None;
    for s in 0..n {
        if !dies_at(img, flags, n, s) {
            continue;
        }
        if stale_at(img, flags, n, s) {
            return Some(s);
        }
        anti = anti_up_to(img, n, s, anti);
    }
    anti
}

fn raise_uid(img: &[u32], flags: &[bool; 1024], n: usize, s: usize, best: u32) -> u32
    requires { FlagAt img.now n s flags.now }
    ensures { result ≡ raised (survivor img.now n) (uid_of img.now) s best }
{
    if flags[s] {
        let h = image::header::header_at(img, n, s);
        best.max(h.uid)
    } else {
        best
    }
}

fn raise_order(img: &[u32], flags: &[bool; 1024], n: usize, w: usize, s: usize, best: u32) -> u32
    requires { SlotMarked img.now n w s flags.now }
    ensures { result ≡ raised (survives_on img.now n queue_board) (key_at img.now n w) s best }
{
    if flags[s] {
        let name = image::name::name_at(img, n, w, s);
        if name.board == Header::QUEUE {
            best.max(name.key)
        } else {
            best
        }
    } else {
        best
    }
}

// The next uid and the next order number: each is one above the largest that survives, and a job's key is no order number.
#[derive(Clone, Copy)]
pub struct Numbers {
    pub uid: u32,
    pub order: u32,
}

fn next_numbers(img: &[u32], flags: &[bool; 1024], n: usize, w: usize) -> Numbers
    requires { Numbered img.now n w flags.now }
    ensures { result ≡ numbers_of img.now n w }
{
    let mut uid = 0;
    let mut order = 0;
    for s in 0..n {
        uid = raise_uid(img, flags, n, s, uid);
        order = raise_order(img, flags, n, w, s, order);
    }
    Numbers {
        uid: uid + 1,
        order: order + 1,
    }
}

// The notes are set, with the index over an image's filled slots.
fn set_notes(image: &[u32], transient: &mut [u32], n: usize, w: usize, next: Numbers)
    requires { Noting image.now transient.old n w }
    ensures { transient.new ≡ notes_over image.now (length transient.old) n w next }
{
    let t = transient::notes::threads(transient.len(), n);
    transient::notes::set_blank(transient, n as u32, next.uid, next.order);
    index::rebuild(image, transient, Sizes { n, w, t });
}

// Nothing is left to free: working becomes a copy, and the notes are set. Out of line, so that the walk before it has the registers.
#[inline(never)]
fn finish(
    working: &mut [u32],
    persistent: &[u32],
    transient: &mut [u32],
    flags: &[bool; 1024],
    n: usize,
    w: usize,
)
    requires { Finishing working.old persistent.now transient.old flags.now n w }
    ensures { store working.new persistent.now transient.new ≡ finished persistent.now (length transient.old) n w }
{
    let next = next_numbers(persistent, flags, n, w);
    image::contents::store_words(working, 0, persistent, persistent.len());
    set_notes(working, transient, n, w, next);
}

fn free_next(
    working: &mut [u32],
    persistent: &mut [u32],
    transient: &mut [u32],
    flags: &[bool; 1024],
    n: usize,
    w: usize,
) -> Result<Recovery, Refusal>
    requires { Finishing working.old persistent.old transient.old flags.now n w }
    ensures { outcome result working.new persistent.new transient.new ≡ freeing (next_freed persistent.old n) (store working.old persistent.old transient.old) n w }
{
    match next_freed(persistent, flags, n) {
        Some(s) => {
            image::header::set_header(persistent, n, s, Header::free());
            Ok(Recovery::WentOn)
        }
        None => {
            finish(working, persistent, transient, flags, n, w);
            Ok(Recovery::Done)
        }
    }
}

// Refusals 1 and 2; of what recover fills, only the lengths are judged.
fn check_entry(working: usize, persistent: &[u32], transient: usize) -> Result<(), Refusal>
    ensures { result ≡ recover_entry_check working persistent.now transient }
{
    if image::shape::shape_ok(persistent) {
        if working != persistent.len() {
            return Err(Refusal::BadSizes);
        }
        if transient::notes::threads_ok(transient, persistent[0] as usize) {
            acceptance::check_head(persistent)
        } else {
            Err(Refusal::BadSizes)
        }
    } else {
        Err(Refusal::BadSizes)
    }
}

// What is left of a call past refusals 1 and 2.
fn recover_sized(
    working: &mut [u32],
    persistent: &mut [u32],
    transient: &mut [u32],
    n: usize,
    w: usize,
) -> Result<Recovery, Refusal>
    requires { Judged working.old persistent.old transient.old n w }
    ensures { outcome result working.new persistent.new transient.new ≡ recover_sized (store working.old persistent.old transient.old) n w }
{
    let mut flags = [false; 1024];
    acceptance::check_slots(persistent, &mut flags, n, w)?;
    free_next(working, persistent, transient, &flags, n, w)
}

// One recover call, whatever working and transient hold.
pub fn recover(
    working: &mut [u32],
    persistent: &mut [u32],
    transient: &mut [u32],
) -> Result<Recovery, Refusal>
    ensures { outcome result working.new persistent.new transient.new ≡ recover (store working.old persistent.old transient.old) }
{
    check_entry(working.len(), persistent, transient.len())?;
    let n = persistent[0] as usize;
    let w = persistent[1] as usize;
    recover_sized(working, persistent, transient, n, w)
}
