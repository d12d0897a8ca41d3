// Which slots of an image survive a crash: kept, and what a kept slot meets of its uid.
#![tactic(auto, using(crate::specs::Exits::laws))]

pub mod rivals;

ghost use Rattle.std.specs.Prelude.{◌≡◌};
ghost use Rattle.image.specs.Layout.{header};
ghost use Rattle.image.specs.Requires.{HeaderFits};
ghost use Rattle.survival.specs.Survivors.{kept, survivor_count};
ghost use Rattle.survival.specs.Requires.{kept_anti, Marked};

use image::header::Header;

pub fn kept(h: Header, c: u32) -> bool
    ensures { result ≡ kept c h }
{
    if h.is_filled() {
        h.epoch as usize + 2 <= c as usize
    } else {
        false
    }
}

// How many flags are set.
pub fn survivor_count(img: &[u32], flags: &[bool; 1024], n: usize) -> usize
    requires { Marked img.now n flags.now }
    ensures { result ≡ survivor_count img.now n }
{
    let mut k = 0;
    for s in 0..n {
        if flags[s] {
            k += 1;
        }
    }
    k
}

// The kind is looked at first: few slots hold a DELETE.
pub fn kept_anti_at(img: &[u32], n: usize, c: u32, s: usize) -> bool
    requires { HeaderFits img.now n s }
    ensures { result ≡ kept_anti c (header img.now s) }
{
    let h = image::header::header_at(img, n, s);
    if h.kind == Header::DELETE {
        kept(h, c)
    } else {
        false
    }
}
