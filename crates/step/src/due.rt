// What an advance looks for first: slots to reclaim. The search goes up from a slot.
#![tactic(auto, using(crate::specs::DueExits::dues))]

ghost use Rattle.std.specs.Prelude.{◌≡◌};
ghost use Rattle.search.specs.From.{first_from};
ghost use Rattle.image.specs.Requires.{HeaderFits};
ghost use Rattle.transient.specs.Store.{table};
ghost use Rattle.transient.specs.Requires.{ShapedSlot};
ghost use Rattle.step.specs.Step.{due};
ghost use Rattle.step.specs.Stages.{due_from};
ghost use Rattle.step.specs.Requires.{Looking, Among, NoteGroup, HeaderGroup, retired_due, payload_due, anti_due, any_retired, any_delete, group_stays};

use image::header::Header;
use transient::sizes::Sizes;

// Was it retired two epochs ago?
fn retired_due(r: u32, c: u32) -> bool
    ensures { result ≡ retired_due r c }
{
    if r == 0 {
        return false;
    }
    r as usize + 2 == c as usize
}

// Is it a payload that was? Most slots are not retired, so that is asked first.
fn payload_due(working: &[u32], transient: &[u32], z: Sizes, c: u32, s: usize) -> bool
    requires { ShapedSlot working.now transient.now z s }
    ensures { result ≡ payload_due z (table working.now transient.now) c s }
{
    if retired_due(transient::notes::retired_in(transient, z, s), c) {
        image::header::header_at(working, z.n, s).is_payload()
    } else {
        false
    }
}

// Is it a DELETE of three epochs ago? Most slots hold none, so the kind is asked first.
fn anti_due(working: &[u32], z: Sizes, c: u32, s: usize) -> bool
    requires { HeaderFits working.now z.n s }
    ensures { result ≡ anti_due working.now c s }
{
    let h = image::header::header_at(working, z.n, s);
    if h.kind == Header::DELETE {
        if h.has_zero() {
            return false;
        }
        return h.epoch as usize + 3 == c as usize;
    }
    false
}

// Does nothing need the slot any more, from clock c on?
fn due(working: &[u32], transient: &[u32], z: Sizes, c: u32, s: usize) -> bool
    requires { ShapedSlot working.now transient.now z s }
    ensures { result ≡ due z (table working.now transient.now) c s }
{
    if payload_due(working, transient, z, c, s) {
        return true;
    }
    anti_due(working, z, c, s)
}

// The first slot to reclaim, from p on and below `to`.
fn due_in(
    working: &[u32],
    transient: &[u32],
    z: Sizes,
    c: u32,
    p: usize,
    to: usize,
) -> Option<usize>
    requires { Among working.now transient.now z p to }
    ensures { result ≡ first_from (due z (table working.now transient.now) c) to p }
{
    for s in p..to {
        if due(working, transient, z, c, s) {
            return Some(s);
        }
    }
    None
}

// ---- sixteen slots at once, as on most of a board nothing is due
const GROUP: usize = 16;

// Was any of the sixteen from s on retired in epoch e? All are looked at: so the compiler takes four in one instruction.
#[tactic(auto, using(crate::specs::DueExits::groups))]
fn any_retired(transient: &[u32], z: Sizes, e: u32, s: usize) -> bool
    requires { NoteGroup transient.now z s }
    ensures { result ≡ any_retired z transient.now e s }
{
    let mut any = false;
    for j in 0..GROUP {
        if transient::notes::retired_in(transient, z, s + j) == e {
            any = true;
        }
    }
    any
}

// Is any of them a DELETE? The kind alone is read.
#[tactic(auto, using(crate::specs::DueExits::groups))]
fn any_delete(working: &[u32], z: Sizes, s: usize) -> bool
    requires { HeaderGroup working.now z s }
    ensures { result ≡ any_delete working.now s }
{
    for j in 0..GROUP {
        if image::header::header_at(working, z.n, s + j).kind == Header::DELETE {
            return true;
        }
    }
    false
}

// Are sixteen left, none of which can be due?
#[tactic(auto, using(crate::specs::DueExits::groups))]
fn group_stays(working: &[u32], transient: &[u32], z: Sizes, c: u32, s: usize) -> bool
    requires { Looking working.now transient.now z c s }
    ensures { result ≡ group_stays z (table working.now transient.now) c s }
{
    if z.n < s + GROUP {
        return false;
    }
    if any_retired(transient, z, c - 2, s) {
        return false;
    }
    if any_delete(working, z, s) {
        return false;
    }
    true
}

// The first slot to reclaim, from p on.
#[tactic(auto, using(crate::specs::DueExits::walks))]
pub fn due_from(working: &[u32], transient: &[u32], z: Sizes, c: u32, p: usize) -> Option<usize>
    requires { Looking working.now transient.now z c p }
    ensures { result ≡ due_from z (table working.now transient.now) c p }
{
    let mut s = p;
    while s < z.n {
        if group_stays(working, transient, z, c, s) {
            s += GROUP;
        } else {
            let to = (s + GROUP).min(z.n);
            match due_in(working, transient, z, c, s, to) {
                Some(m) => {
                    return Some(m);
                }
                None => {
                    s = to;
                }
            }
        }
    }
    None
}
