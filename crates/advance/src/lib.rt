// One advance call: one line becomes lasting.
#![tactic(auto, using(crate::specs::Exits::checks))]

pub mod open;

ghost use Rattle.std.specs.Prelude.{◌≡◌, ◌≤◌, length, Ok};
ghost use Rattle.transient.specs.Layout.{head_words, note, place_at};
ghost use Rattle.transient.specs.Store.{store, outcome};
ghost use Rattle.transient.specs.Requires.{Notes, EnteredWith};
ghost use Rattle.step.specs.Step.{step};
ghost use Rattle.step.specs.Requires.{Going};
ghost use Rattle.step.specs.Moved.{reply_of};
ghost use Rattle.advance.specs.Advance.{noted, advance};
ghost use Rattle.advance.specs.Stages.{noted_place, underway, held_open, held_check, advance_sized};

use reply::Refusal;
use step::{Advance, Place};
use transient::sizes::Sizes;

fn underway(transient: &[u32]) -> bool
    requires { head_words ≤ length transient.now }
    ensures { result ≡ underway transient.now }
{
    let phase = transient::notes::place_phase(transient);
    if phase < Place::RECLAIM {
        return false;
    }
    phase <= Place::CLOCK
}

// An advance begins only when the epoch before the clock has no operation open.
fn held_open(transient: &[u32], z: Sizes, c: u32) -> bool
    requires { Notes transient.now z }
    ensures { result ≡ held_open z transient.now c }
{
    if underway(transient) {
        return false;
    }
    crate::open::open_below(transient, z, c)
}

// Refusals 14 and 15.
fn check(transient: &[u32], z: Sizes, c: u32) -> Result<(), Refusal>
    requires { Notes transient.now z }
    ensures { result ≡ held_check z transient.now c }
{
    if held_open(transient, z, c) {
        return Err(Refusal::StillOpen);
    }
    if c == image::shape::MOST_NUMBER {
        return Err(Refusal::LastEpoch);
    }
    Ok(())
}

fn reply_of(ticked: bool) -> Advance
    ensures { result ≡ reply_of ticked }
{
    if ticked {
        Advance::Ticked
    } else {
        Advance::WentOn
    }
}

// A step from the place that the notes have, which the notes then keep.
#[tactic(auto, using(crate::specs::Exits::placing))]
fn note_step(
    working: &mut [u32],
    persistent: &mut [u32],
    transient: &mut [u32],
    z: Sizes,
    c: u32,
) -> Advance
    requires { Going working.old persistent.old transient.old z c (note place_at transient.old) }
    ensures { outcome (Ok result) working.new persistent.new transient.new ≡ noted (step z (store working.old persistent.old transient.old) c (noted_place transient.old)) }
{
    let place = Place {
        phase: transient::notes::place_phase(transient),
        slot: transient::notes::place_slot(transient),
    };
    let m = step::lent::step_from(working, persistent, transient, z, c, place);
    transient::notes::set_place(transient, m.place.phase, m.place.slot as u32);
    reply_of(m.ticked)
}

// An advance call past refusals 1 and 2. Sync, which has judged them once, loops over it.
#[tactic(auto, using(crate::specs::Exits::checks, crate::specs::Exits::calls))]
pub fn advance_sized(
    working: &mut [u32],
    persistent: &mut [u32],
    transient: &mut [u32],
    z: Sizes,
) -> Result<Advance, Refusal>
    requires { EnteredWith working.old persistent.old transient.old z }
    ensures { outcome result working.new persistent.new transient.new ≡ advance_sized z (store working.old persistent.old transient.old) }
{
    let c = image::shape::clock(working);
    check(transient, z, c)?;
    Ok(note_step(working, persistent, transient, z, c))
}

// Stores one line, or declines and changes nothing.
#[tactic(auto, using(crate::specs::Exits::calls, transient::specs::Passed::passing))]
pub fn advance(
    working: &mut [u32],
    persistent: &mut [u32],
    transient: &mut [u32],
) -> Result<Advance, Refusal>
    ensures { outcome result working.new persistent.new transient.new ≡ advance (store working.old persistent.old transient.old) }
{
    transient::entry::check(working, persistent, transient)?;
    let z = transient::sizes::read_sizes(working, transient);
    advance_sized(working, persistent, transient, z)
}
