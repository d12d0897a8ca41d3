// The shape of an image: sizes in range and the length that they ask; and the clock.
ghost use Rattle.std.specs.Prelude.{◌≡◌, ◌≤◌, ◌<◌, ◌^◌, length};
ghost use Rattle.image.specs.Layout.{sizes_ok, shape_ok, image_words, clock_of, clock_ok};
ghost use Rattle.image.specs.Line.{clock_line, store_line};
ghost use Rattle.image.specs.Requires.{InRange};

use crate::header::Header;

// The largest N.
pub const MOST_SLOTS: usize = 1024;

// The largest clock, uid and order number.
pub const MOST_NUMBER: u32 = 4000000000;

// Are N and W in range?
pub fn sizes_ok(n: usize, w: usize) -> bool
    ensures { result ≡ sizes_ok n w }
{
    if n < 2 {
        return false;
    }
    if MOST_SLOTS < n {
        return false;
    }
    if w < 2 {
        return false;
    }
    w <= 9
}

// How many words an image of these sizes has.
#[tactic(auto, using(crate::specs::Exits::laws))]
pub fn image_words(n: usize, w: usize) -> usize
    requires { InRange n w }
    ensures { result ≡ image_words n w }
{
    3 + Header::WORDS * n + w * n
}

pub fn shape_ok(img: &[u32]) -> bool
    ensures { result ≡ shape_ok img.now }
{
    crate::words::shape_ok(img)
}

pub fn clock(img: &[u32]) -> u32
    requires { 3 ≤ length img.now }
    ensures { result ≡ clock_of img.now }
{
    img[2]
}

#[tactic(auto, using(crate::specs::Exits::laws))]
pub fn set_clock(img: &mut [u32], c: u32)
    requires { 3 ≤ length img.old }
    ensures { img.new ≡ store_line img.old (clock_line c) }
{
    img[2] = c;
}

pub fn clock_ok(c: u32) -> bool
    ensures { result ≡ clock_ok c }
{
    if c < 2 {
        return false;
    }
    c <= MOST_NUMBER
}
