// A word written back: the memory copies one from working to persistent outside of any advance.
#![tactic(auto)]

ghost use Rattle.std.specs.Prelude.{◌≡◌, length};
ghost use Rattle.transient.specs.Store.{store, outcome};
ghost use Rattle.write_back.specs.WriteBack.{write_back};
ghost use Rattle.write_back.specs.Stages.{write_word};

use reply::Refusal;

// The first three words are the sizes and the clock.
#[tactic(auto, using(crate::specs::Exits::writes))]
fn write_word(
    working: &[u32],
    persistent: &mut [u32],
    transient: &[u32],
    position: usize,
) -> Result<(), Refusal>
    requires { length persistent.old ≡ length working.now }
    ensures { outcome result working.now persistent.new transient.now ≡ write_word (store working.now persistent.old transient.now) position }
{
    if position < 3 {
        return Err(Refusal::NoWord);
    }
    if working.len() <= position {
        return Err(Refusal::NoWord);
    }
    persistent[position] = working[position];
    Ok(())
}

// Copies the word at a position of the image, from 0.
#[tactic(auto, using(crate::specs::Exits::writes))]
pub fn write_back(
    working: &[u32],
    persistent: &mut [u32],
    transient: &[u32],
    position: usize,
) -> Result<(), Refusal>
    ensures { outcome result working.now persistent.new transient.now ≡ write_back (store working.now persistent.old transient.now) position }
{
    transient::entry::check(working, persistent, transient)?;
    write_word(working, persistent, transient, position)
}
