// The check of an image, whose words stand as words or as bytes.
ghost use Rattle.std.specs.Prelude.{◌≡◌};
ghost use Rattle.image.specs.Requires.{Sized};
ghost use Rattle.survival.specs.Rivals.{Flags};
ghost use Rattle.acceptance.specs.Requires.{head_check};
ghost use Rattle.acceptance.specs.Checking.{CheckRoom, Checked, Accepted};

use image::words::Words;
use reply::Refusal;

// Refusals 1 and 2.
#[tactic(auto, using(crate::specs::Exits::heads))]
pub fn head<W: Words>(img: W) -> Result<(), Refusal>
    ensures { result ≡ head_check (W.words img) }
{
    if image::words::shape_ok(img) {
        if image::shape::clock_ok(img.word(2)) {
            Ok(())
        } else {
            Err(Refusal::BadClock)
        }
    } else {
        Err(Refusal::BadSizes)
    }
}

// Both passes, in the memory lent for m slots.
#[tactic(auto, using(crate::specs::Checking::checks))]
fn slots_in<W: Words>(
    img: W,
    l: &mut [u32],
    flags: &mut [bool; 1024],
    m: usize,
    n: usize,
    w: usize,
) -> Result<(), Refusal>
    requires { CheckRoom (W.words img) n w m l.old flags.old }
    ensures { Checked (W.words img) n w result flags.new }
{
    let version = crate::marks::judge(img, l, flags, m, n)?;
    chains::clear(l, m);
    let name = crate::names::names(img, l, flags, m, n, w)?;
    if version | name {
        return Err(Refusal::Duplicate);
    }
    Ok(())
}

// Refusals 3 and 4; of an image that is accepted, the flags say which slots survive. A small board takes less memory, which is cleared sooner.
#[tactic(auto, using(crate::specs::Checking::checks))]
pub fn slots<W: Words>(img: W, flags: &mut [bool; 1024], n: usize, w: usize) -> Result<(), Refusal>
    requires sized { Sized (W.words img) n w }
    requires flags { Flags flags.old }
    ensures { Checked (W.words img) n w result flags.new }
{
    if n <= 16 {
        let mut l = [0u32; 64];
        return slots_in(img, &mut l, flags, 16, n, w);
    }
    if n <= 128 {
        let mut l = [0u32; 512];
        return slots_in(img, &mut l, flags, 128, n, w);
    }
    let mut l = [0u32; 4096];
    slots_in(img, &mut l, flags, 1024, n, w)
}

// Refusals 1 to 4; of an image that is accepted, the flags say which slots survive.
#[tactic(auto, using(crate::specs::Exits::whole))]
pub fn whole<W: Words>(img: W, flags: &mut [bool; 1024]) -> Result<(), Refusal>
    requires { Flags flags.old }
    ensures { Accepted (W.words img) result flags.new }
{
    head(img)?;
    let n = img.word(0) as usize;
    let w = img.word(1) as usize;
    slots(img, flags, n, w)
}
