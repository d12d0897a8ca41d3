// The calls that make changes lasting: advance, sync, and a word written back.
#![tactic(auto, using(crate::specs::Exits::laws))]

ghost use Rattle.std.specs.Prelude.{◌≡◌};
ghost use Rattle.transient.specs.Store.{store, outcome};
ghost use Rattle.transient.specs.Calls.{check_number};
ghost use Rattle.advance.specs.Advance.{advance, advance_number};
ghost use Rattle.sync.specs.Sync.{sync, sync_number};
ghost use Rattle.write_back.specs.WriteBack.{write_back};
ghost use Rattle.board.specs.Calls.{numbered};

use step::Advance;

// 0 went on, 1 ticked, or 2^32 plus the refusal.
pub fn board_advance(working: &mut [u32], persistent: &mut [u32], transient: &mut [u32]) -> u64
    ensures { outcome result working.new persistent.new transient.new ≡ numbered advance_number (advance (store working.old persistent.old transient.old)) }
{
    match advance::advance(working, persistent, transient) {
        Ok(Advance::WentOn) => 0,
        Ok(Advance::Ticked) => 1,
        Err(r) => reply::declined(r),
    }
}

// The lines stored, or 2^32 plus the refusal.
pub fn board_sync(working: &mut [u32], persistent: &mut [u32], transient: &mut [u32]) -> u64
    ensures { outcome result working.new persistent.new transient.new ≡ numbered sync_number (sync (store working.old persistent.old transient.old)) }
{
    match sync::sync(working, persistent, transient) {
        Ok(lines) => lines as u64,
        Err(r) => reply::declined(r),
    }
}

// 0 for accepted, else 01's number of the refusal.
pub fn board_write_back(
    working: &[u32],
    persistent: &mut [u32],
    transient: &[u32],
    position: usize,
) -> u32
    ensures { outcome result working.now persistent.new transient.now ≡ numbered check_number (write_back (store working.now persistent.old transient.now) position) }
{
    crate::on_jobs::reply_number(write_back::write_back(working, persistent, transient, position))
}
