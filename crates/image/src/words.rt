// An image's words, read one by one: they stand as words, or as bytes, four to a word, lowest first.
#![tactic(auto, using(crate::specs::Exits::laws))]

ghost use Rattle.std.specs.Prelude.{◌≡◌, ℕ, ◌<◌, List, length, get_or};
ghost use Rattle.image.specs.Layout.{header, key_at, shape_ok};
ghost use Rattle.image.specs.Name.{name_at};
ghost use Rattle.image.specs.Bytes.{words_of};
ghost use Rattle.image.specs.Requires.{HeaderFits, Slot, board_at};

use crate::header::Header;
use crate::name::Name;

pub trait Words: Copy {
    ghost words: { Self → List ℕ };

    // How many there are.
    fn count(self) -> usize
        ensures { result ≡ length (words self) };

    fn word(self, i: usize) -> u32
        requires { i < length (words self) }
        ensures { result ≡ get_or (words self) i 0 };
}

impl<'a> Words for &'a [u32] {
    ghost words = { λ l. l.now };

    fn count(self) -> usize {
        self.len()
    }

    fn word(self, i: usize) -> u32 {
        self[i]
    }
}

impl<'a> Words for &'a [u8] {
    ghost words = { λ bytes. words_of bytes.now };

    #[tactic(auto, using(crate::specs::Words::packed))]
    fn count(self) -> usize {
        self.len() / 4
    }

    #[tactic(auto, using(crate::specs::Words::packed))]
    fn word(self, i: usize) -> u32 {
        let b = 4 * i;
        u32::from_le_bytes([self[b], self[b + 1], self[b + 2], self[b + 3]])
    }
}

pub fn board<W: Words>(img: W, n: usize, s: usize) -> u32
    requires { HeaderFits (W.words img) n s }
    ensures { result ≡ board_at (W.words img) s }
{
    img.word(3 + Header::WORDS * s + 3)
}

pub fn header<W: Words>(img: W, n: usize, s: usize) -> Header
    requires { HeaderFits (W.words img) n s }
    ensures { result ≡ header (W.words img) s }
{
    let b = 3 + Header::WORDS * s;
    Header {
        kind: img.word(b),
        epoch: img.word(b + 1),
        uid: img.word(b + 2),
        board: img.word(b + 3),
    }
}

pub fn key<W: Words>(img: W, n: usize, w: usize, s: usize) -> u32
    requires { Slot (W.words img) n w s }
    ensures { result ≡ key_at (W.words img) n w s }
{
    img.word(crate::contents::contents_at(n, w, s))
}

// The name of what the slot holds.
pub fn name<W: Words>(img: W, n: usize, w: usize, s: usize) -> Name
    requires { Slot (W.words img) n w s }
    ensures { result ≡ name_at (W.words img) n w s }
{
    Name {
        board: board(img, n, s),
        key: key(img, n, w, s),
    }
}

// Do they have the shape of an image?
pub fn shape_ok<W: Words>(img: W) -> bool
    ensures { result ≡ shape_ok (W.words img) }
{
    if img.count() < 3 {
        return false;
    }
    let n = img.word(0) as usize;
    let w = img.word(1) as usize;
    if crate::shape::sizes_ok(n, w) {
        img.count() == crate::shape::image_words(n, w)
    } else {
        false
    }
}
