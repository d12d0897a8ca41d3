// The second pass over an image's slots: each survivor's name is judged, and held against those of the survivors before it.
ghost use Rattle.acceptance.specs.Naming.{Names, NamesMarked, NamesRoom, NamedSlot, NamedAt, Named};

use image::name::Name;
use image::words::Words;
use reply::Refusal;

// One survivor, after `s` slots.
#[inline(always)]
#[tactic(auto, using(crate::specs::Naming::namings))]
pub fn name_slot(l: &mut [u32], m: usize, s: usize, name: Name) -> Result<bool, Refusal>
    requires { Names m s l.old }
    ensures { NamedSlot m l.old s name l.new result }
{
    if name.is_bad() {
        return Err(Refusal::BadSlot);
    }
    let twice = chains::paired(l, m, s, name.key, name.board);
    chains::link(l, m, s, name.key, name.board);
    Ok(twice)
}

// One slot, which survives or not.
#[tactic(auto, using(crate::specs::Naming::namings))]
fn name_marked<W: Words>(
    img: W,
    l: &mut [u32],
    flags: &[bool; 1024],
    m: usize,
    n: usize,
    w: usize,
    s: usize,
) -> Result<bool, Refusal>
    requires { NamesMarked (W.words img) n w m s l.old flags.now }
    ensures { NamedAt (W.words img) n w m l.old s l.new result }
{
    if flags[s] {
        return name_slot(l, m, s, image::words::name(img, n, w, s));
    }
    chains::skip(l, m, s);
    Ok(false)
}

// All slots of an image. Is a name there twice?
#[tactic(auto, using(crate::specs::Naming::names))]
pub fn names<W: Words>(
    img: W,
    l: &mut [u32],
    flags: &[bool; 1024],
    m: usize,
    n: usize,
    w: usize,
) -> Result<bool, Refusal>
    requires { NamesRoom (W.words img) n w m l.old flags.now }
    ensures { Named (W.words img) n w m l.new result }
{
    let mut any = false;
    for s in 0..n {
        any |= name_marked(img, l, flags, m, n, w, s)?;
    }
    Ok(any)
}
