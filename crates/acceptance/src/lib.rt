// What recovery refuses in an image: refusals 1 to 4.
#![tactic(auto)]

pub mod checks;
pub mod marks;
pub mod names;
pub mod questions;

ghost use Rattle.std.specs.Prelude.{◌≡◌};
ghost use Rattle.image.specs.Requires.{Sized};
ghost use Rattle.survival.specs.Requires.{Marked};
ghost use Rattle.survival.specs.Rivals.{Flags};
ghost use Rattle.acceptance.specs.Accept.{image_check};
ghost use Rattle.acceptance.specs.Requires.{head_check};
ghost use Rattle.acceptance.specs.Checking.{Checked, SlotsFine};

use reply::Refusal;

// Refusals 1 and 2.
pub fn check_head(img: &[u32]) -> Result<(), Refusal>
    ensures { result ≡ head_check img.now }
{
    checks::head(img)
}

// Refusals 3 and 4; of an image that is accepted, the flags say which slots survive.
pub fn check_slots(img: &[u32], flags: &mut [bool; 1024], n: usize, w: usize) -> Result<(), Refusal>
    requires sized { Sized img.now n w }
    requires flags { Flags flags.old }
    ensures { Checked img.now n w result flags.new }
{
    checks::slots(img, flags, n, w)
}

// Which slots of an accepted image survive.
#[tactic(auto, using(crate::specs::Checking::checks))]
pub fn survivors(img: &[u32], n: usize, w: usize) -> [bool; 1024]
    requires { SlotsFine img.now n w }
    ensures { Marked img.now n result }
{
    let mut flags = [false; 1024];
    let _ = check_slots(img, &mut flags, n, w);
    flags
}

// An image alone: refusals 1 to 4.
#[tactic(auto, using(crate::specs::Checking::checks))]
pub fn check(img: &[u32]) -> Result<(), Refusal>
    ensures { result ≡ image_check img.now }
{
    let mut flags = [false; 1024];
    checks::whole(img, &mut flags)
}
