// Sync: advance calls until two ticks have happened. It stores no line of its own.
#![tactic(auto)]

ghost use Rattle.std.specs.Prelude.{◌≡◌, ◌*◌};
ghost use Rattle.image.specs.Layout.{slots_of};
ghost use Rattle.transient.specs.Store.{store, outcome};
ghost use Rattle.transient.specs.Requires.{Entered};
ghost use Rattle.advance.specs.Stages.{most_lines};
ghost use Rattle.sync.specs.Sync.{sync_check, sync_from, sync};
ghost use Rattle.sync.specs.Stages.{ready_check};
ghost use Rattle.sync.specs.Quiet.{Ready};

use reply::Refusal;
use step::Advance;
use transient::sizes::Sizes;

// Refusals 14 and 15.
#[tactic(auto, using(crate::specs::Exits::checks))]
fn check_ready(working: &[u32], transient: &[u32], z: Sizes) -> Result<(), Refusal>
    requires { Entered working.now transient.now z }
    ensures { result ≡ ready_check working.now transient.now z.t }
{
    if advance::open::any_open(transient, z) {
        return Err(Refusal::StillOpen);
    }
    if image::shape::MOST_NUMBER - 2 < image::shape::clock(working) {
        return Err(Refusal::LastEpoch);
    }
    Ok(())
}

#[tactic(auto, using(crate::specs::Exits::checks, transient::specs::Passed::passing))]
fn check(working: &[u32], persistent: &[u32], transient: &[u32]) -> Result<(), Refusal>
    ensures { result ≡ sync_check (store working.now persistent.now transient.now) }
{
    transient::entry::check(working, persistent, transient)?;
    let z = transient::sizes::read_sizes(working, transient);
    check_ready(working, transient, z)
}

// What the entry check found holds after each line too, so that it is made once.
#[tactic(auto, using(crate::specs::Exits::syncs))]
fn sync_lines(
    working: &mut [u32],
    persistent: &mut [u32],
    transient: &mut [u32],
    z: Sizes,
) -> Result<usize, Refusal>
    requires { Ready 2 working.old persistent.old transient.old z }
    ensures { outcome result working.new persistent.new transient.new ≡ sync_from (2 * most_lines (slots_of working.old)) 2 0 (store working.old persistent.old transient.old) }
{
    let mut ticks: usize = 2;
    let mut lines = 0;
    while 0 < ticks {
        let moved = advance::advance_sized(working, persistent, transient, z)?;
        match moved {
            Advance::WentOn => {}
            Advance::Ticked => ticks -= 1,
        }
        lines += 1;
    }
    Ok(lines)
}

// Makes lasting all that happened before it, and counts the lines stored.
#[tactic(auto, using(crate::specs::Exits::syncs))]
pub fn sync(
    working: &mut [u32],
    persistent: &mut [u32],
    transient: &mut [u32],
) -> Result<usize, Refusal>
    ensures { outcome result working.new persistent.new transient.new ≡ sync (store working.old persistent.old transient.old) }
{
    check(working, persistent, transient)?;
    let z = transient::sizes::read_sizes(working, transient);
    sync_lines(working, persistent, transient, z)
}
