// The place of an advance, lent to the step that moves it.
ghost use Rattle.std.specs.Prelude.{◌≡◌};
ghost use Rattle.transient.specs.Store.{store};
ghost use Rattle.step.specs.Step.{stepped, step};
ghost use Rattle.step.specs.Requires.{Going};
ghost use Rattle.step.specs.Moved.{reply_of, moved};

use crate::{Moved, Place};
use transient::sizes::Sizes;

// One step, which moves the place on. Did it tick?
fn step_place(
    place: &mut Place,
    working: &mut [u32],
    persistent: &mut [u32],
    transient: &mut [u32],
    z: Sizes,
    c: u32,
) -> bool
    requires { Going working.old persistent.old transient.old z c place.old.slot }
    ensures { stepped (reply_of result) working.new persistent.new transient.new place.new ≡ step z (store working.old persistent.old transient.old) c place.old }
{
    let m = crate::step(working, persistent, transient, z, c, *place);
    *place = m.place;
    m.ticked
}

// The same from a place by value: what every other caller uses.
pub fn step_from(
    working: &mut [u32],
    persistent: &mut [u32],
    transient: &mut [u32],
    z: Sizes,
    c: u32,
    from: Place,
) -> Moved
    requires { Going working.old persistent.old transient.old z c from.slot }
    ensures { moved result working.new persistent.new transient.new ≡ step z (store working.old persistent.old transient.old) c from }
{
    let mut place = from;
    let ticked = step_place(&mut place, working, persistent, transient, z, c);
    Moved { ticked, place }
}
