// Operations that an advance or a sync has to wait for.
#![tactic(auto, using(crate::specs::OpenExits::laws))]

ghost use Rattle.std.specs.Prelude.{◌≡◌};
ghost use Rattle.transient.specs.Requires.{Notes, ThreadOf};
ghost use Rattle.advance.specs.Stages.{open_below, is_open, is_open_below, any_open};

use transient::sizes::Sizes;

fn is_open(transient: &[u32], z: Sizes, thread: usize) -> bool
    requires { ThreadOf transient.now z thread }
    ensures { result ≡ is_open transient.now thread }
{
    transient::notes::open_epoch(transient, z, thread) != 0
}

fn is_open_below(transient: &[u32], z: Sizes, c: u32, thread: usize) -> bool
    requires { ThreadOf transient.now z thread }
    ensures { result ≡ is_open_below transient.now c thread }
{
    let e = transient::notes::open_epoch(transient, z, thread);
    e as usize + 1 == c as usize
}

// Is any operation open?
pub fn any_open(transient: &[u32], z: Sizes) -> bool
    requires { Notes transient.now z }
    ensures { result ≡ any_open transient.now z.t }
{
    for thread in 0..z.t {
        if is_open(transient, z, thread) {
            return true;
        }
    }
    false
}

// Is an operation open in the epoch before c?
pub fn open_below(transient: &[u32], z: Sizes, c: u32) -> bool
    requires { Notes transient.now z }
    ensures { result ≡ open_below transient.now z.t c }
{
    for thread in 0..z.t {
        if is_open_below(transient, z, c, thread) {
            return true;
        }
    }
    false
}
