// One recover call.
ghost use Rattle.std.specs.Prelude.{◌≡◌};
ghost use Rattle.transient.specs.Store.{store, outcome};
ghost use Rattle.recovery.specs.Recover.{recover, recovery_number};
ghost use Rattle.board.specs.Calls.{numbered};

use recovery::Recovery;

// 0 went on, 1 done, or 2^32 plus the refusal.
#[tactic(auto, using(crate::specs::Exits::laws))]
pub fn board_recover(working: &mut [u32], persistent: &mut [u32], transient: &mut [u32]) -> u64
    ensures { outcome result working.new persistent.new transient.new ≡ numbered recovery_number (recover (store working.old persistent.old transient.old)) }
{
    match recovery::recover(working, persistent, transient) {
        Ok(Recovery::WentOn) => 0,
        Ok(Recovery::Done) => 1,
        Err(r) => reply::declined(r),
    }
}
