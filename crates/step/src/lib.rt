// One step of an advance: the next line is stored. The place goes through it by value.
#![tactic(auto, using(crate::specs::Exits::lines, crate::specs::Exits::steps))]

pub mod due;
pub mod lent;
pub mod lines;

ghost use Rattle.std.specs.Prelude.{◌≡◌, ◌<◌};
ghost use Rattle.image.specs.Layout.{most_slots};
ghost use Rattle.transient.specs.Store.{store, table};
ghost use Rattle.step.specs.Step.{passing, reclaimed, header_flushed, ticking, flush_from, step};
ghost use Rattle.step.specs.Stages.{due_next, reclaim_or_flush};
ghost use Rattle.step.specs.Requires.{Advancing, Going, Looking, slot_in};
ghost use Rattle.step.specs.Moved.{moved};

use reply::Refusal;
use transient::sizes::Sizes;

// The place an advance has reached.
#[derive(Clone, Copy)]
pub struct Place {
    // 1 reclaiming, 2 contents next, 3 header next, 4 only the clock left; any other: none underway
    pub phase: u32,
    pub slot: usize,
}

impl Place {
    pub const NONE: u32 = 0;

    pub const RECLAIM: u32 = 1;

    pub const CONTENTS: u32 = 2;

    pub const HEADER: u32 = 3;

    pub const CLOCK: u32 = 4;
}

// What an advance call did: "went on" or "ticked".
#[derive(Clone, Copy, Debug, PartialEq, Eq)]
pub enum Advance {
    WentOn,
    Ticked,
}

// Whether a step ticked, and the place that comes after it.
#[derive(Clone, Copy)]
pub struct Moved {
    pub ticked: bool,
    pub place: Place,
}

// Past slot s: the next slot in this phase, or the next phase from slot 0 on.
fn passing(n: usize, s: usize, phase: u32, next: u32) -> Place
    requires { s < most_slots }
    ensures { result ≡ passing n s phase next }
{
    let up = s + 1;
    if up < n {
        return Place { phase, slot: up };
    }
    Place {
        phase: next,
        slot: 0,
    }
}

// The slot becomes free in both images, and leaves the index.
fn reclaim(
    working: &mut [u32],
    persistent: &mut [u32],
    transient: &mut [u32],
    z: Sizes,
    c: u32,
    s: usize,
) -> Moved
    requires { Going working.old persistent.old transient.old z c s }
    ensures { moved result working.new persistent.new transient.new ≡ reclaimed z (store working.old persistent.old transient.old) s }
{
    let name = image::name::name_at(working, z.n, z.w, s);
    crate::lines::free_both(working, persistent, z, s);
    transient::notes::set_retired(transient, z, s, 0);
    index::remove(transient, z, name, s);
    let place = passing(z.n, s, Place::RECLAIM, Place::CONTENTS);
    Moved {
        ticked: false,
        place,
    }
}

// The header of the slot whose contents are flushed.
fn flush_header(
    working: &mut [u32],
    persistent: &mut [u32],
    transient: &mut [u32],
    z: Sizes,
    c: u32,
    s: usize,
) -> Moved
    requires { Going working.old persistent.old transient.old z c s }
    ensures { moved result working.new persistent.new transient.new ≡ header_flushed z (store working.old persistent.old transient.old) s }
{
    crate::lines::write_header(working, persistent, z, s);
    let place = passing(z.n, s, Place::CONTENTS, Place::CLOCK);
    Moved {
        ticked: false,
        place,
    }
}

// The clock goes up in both images, and what waited for that is flushed. The list is emptied first: after a store into an image the
// sizes would be read again, and a step that grows by that is no longer compiled into its call.
fn tick(
    working: &mut [u32],
    persistent: &mut [u32],
    transient: &mut [u32],
    z: Sizes,
    c: u32,
) -> Moved
    requires { Advancing working.old persistent.old transient.old z c }
    ensures { moved result working.new persistent.new transient.new ≡ ticking z (store working.old persistent.old transient.old) c }
{
    transient::lists::empty_list(transient, z, c - 1);
    image::shape::set_clock(working, c + 1);
    image::shape::set_clock(persistent, c + 1);
    let place = Place {
        phase: Place::NONE,
        slot: 0,
    };
    Moved {
        ticked: true,
        place,
    }
}

// The contents of the next slot that waits, else the clock.
fn flush_from(
    working: &mut [u32],
    persistent: &mut [u32],
    transient: &mut [u32],
    z: Sizes,
    c: u32,
    p: usize,
) -> Moved
    requires { Going working.old persistent.old transient.old z c p }
    ensures { moved result working.new persistent.new transient.new ≡ flush_from z (store working.old persistent.old transient.old) c p }
{
    match transient::lists::waiting_from(transient, z, c - 1, p) {
        Some(s) => {
            image::contents::copy_contents(working, persistent, z.n, z.w, s);
            let place = Place {
                phase: Place::HEADER,
                slot: s,
            };
            Moved {
                ticked: false,
                place,
            }
        }
        None => tick(working, persistent, transient, z, c),
    }
}

// Where a phase goes on, or begins.
#[tactic(auto, using(crate::specs::Exits::places))]
fn slot_in(place: Place, phase: u32) -> usize
    ensures { result ≡ slot_in place phase }
{
    if place.phase == phase {
        return place.slot;
    }
    0
}

// The next slot to reclaim; none where contents are next.
#[tactic(auto, using(crate::specs::Exits::places))]
fn due_next(working: &[u32], transient: &[u32], z: Sizes, c: u32, place: Place) -> Option<usize>
    requires { Looking working.now transient.now z c place.slot }
    ensures { result ≡ due_next z (table working.now transient.now) c place }
{
    if place.phase == Place::CONTENTS {
        return None;
    }
    crate::due::due_from(working, transient, z, c, slot_in(place, Place::RECLAIM))
}

// The next slot to reclaim, else the next line to flush.
#[tactic(auto, using(crate::specs::Exits::slots))]
fn reclaim_or_flush(
    working: &mut [u32],
    persistent: &mut [u32],
    transient: &mut [u32],
    z: Sizes,
    c: u32,
    place: Place,
) -> Moved
    requires { Going working.old persistent.old transient.old z c place.slot }
    ensures { moved result working.new persistent.new transient.new ≡ reclaim_or_flush z (store working.old persistent.old transient.old) c place }
{
    match due_next(working, transient, z, c, place) {
        Some(s) => reclaim(working, persistent, transient, z, c, s),
        None => flush_from(
            working,
            persistent,
            transient,
            z,
            c,
            slot_in(place, Place::CONTENTS),
        ),
    }
}

// From a place on; where none is underway an advance begins.
#[tactic(auto, using(crate::specs::Exits::stepping))]
pub fn step(
    working: &mut [u32],
    persistent: &mut [u32],
    transient: &mut [u32],
    z: Sizes,
    c: u32,
    place: Place,
) -> Moved
    requires { Going working.old persistent.old transient.old z c place.slot }
    ensures { moved result working.new persistent.new transient.new ≡ step z (store working.old persistent.old transient.old) c place }
{
    match place.phase {
        Place::HEADER => flush_header(working, persistent, transient, z, c, place.slot),
        Place::CLOCK => tick(working, persistent, transient, z, c),
        _ => reclaim_or_flush(working, persistent, transient, z, c, place),
    }
}
