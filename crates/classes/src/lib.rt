// The four classes of slots, and how many slots of an image are in each.
#![tactic(auto, using(crate::specs::Exits::laws))]

ghost use Rattle.std.specs.Prelude.{◌≡◌, not, ◌&&◌, ◌<◌, ◌+◌};
ghost use Rattle.search.specs.Count.{count};
ghost use Rattle.survival.specs.Survivors.{kept};
ghost use Rattle.survival.specs.Requires.{Marked, FlagAt};
ghost use Rattle.classes.specs.Classes.{in_class, head_count, total};
ghost use Rattle.classes.specs.Requires.{too_new};

use image::header::Header;

#[derive(Clone, Copy, Debug, PartialEq, Eq)]
pub enum Class {
    Free,
    Surviving,
    // kept, and not surviving
    Kept,
    // filled, and not kept yet
    New,
}

// How many slots are in each class.
#[derive(Clone, Copy)]
pub struct HeadCount {
    pub free: u32,
    pub surviving: u32,
    pub kept: u32,
    pub new: u32,
}

fn kept_only(h: Header, c: u32, survives: bool) -> bool
    ensures { result ≡ (kept c h && not survives) }
{
    if survival::kept(h, c) {
        if survives { false } else { true }
    } else {
        false
    }
}

fn too_new(h: Header, c: u32) -> bool
    ensures { result ≡ too_new c h }
{
    if h.is_filled() {
        (c as usize) < h.epoch as usize + 2
    } else {
        false
    }
}

// Is slot s in that class? Each has a rule of its own; none is what the others leave.
fn in_class(img: &[u32], flags: &[bool; 1024], n: usize, s: usize, class: Class) -> bool
    requires { FlagAt img.now n s flags.now }
    ensures { result ≡ in_class class img.now n s }
{
    let h = image::header::header_at(img, n, s);
    let c = image::shape::clock(img);
    match class {
        Class::Free => h.has_zero(),
        Class::Surviving => flags[s],
        Class::Kept => kept_only(h, c, flags[s]),
        Class::New => too_new(h, c),
    }
}

fn count_class(img: &[u32], flags: &[bool; 1024], n: usize, class: Class) -> u32
    requires { Marked img.now n flags.now }
    ensures { result ≡ count (in_class class img.now n) n }
{
    let mut k: u32 = 0;
    for s in 0..n {
        if in_class(img, flags, n, s, class) {
            k += 1;
        }
    }
    k
}

// The four figures of an image, accepted or not.
pub fn head_count(img: &[u32], flags: &[bool; 1024], n: usize) -> HeadCount
    requires { Marked img.now n flags.now }
    ensures { result ≡ head_count img.now n }
{
    let free = count_class(img, flags, n, Class::Free);
    let surviving = count_class(img, flags, n, Class::Surviving);
    let kept = count_class(img, flags, n, Class::Kept);
    let new = count_class(img, flags, n, Class::New);
    HeadCount {
        free,
        surviving,
        kept,
        new,
    }
}

// Their sum.
pub fn total(c: HeadCount) -> u64
    ensures { result ≡ total c }
{
    c.free as u64 + c.surviving as u64 + c.kept as u64 + c.new as u64
}
