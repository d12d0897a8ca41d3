// A slot's contents: a key, then the words of its value.
#![tactic(auto, using(crate::specs::Exits::laws))]

ghost use Rattle.std.specs.Prelude.{◌≡◌, ◌+◌, ◌≤◌, length, replicate};
ghost use Rattle.image.specs.Layout.{contents_at, key_at, contents};
ghost use Rattle.image.specs.Line.{stored, store_line, contents_line};
ghost use Rattle.image.specs.Requires.{SlotOf, Slot, Slots};

use crate::header::Header;

// Where a slot's contents stand.
pub fn contents_at(n: usize, w: usize, s: usize) -> usize
    requires { SlotOf n w s }
    ensures { result ≡ contents_at n w s }
{
    3 + Header::WORDS * n + w * s
}

pub fn key_at(img: &[u32], n: usize, w: usize, s: usize) -> u32
    requires { Slot img.now n w s }
    ensures { result ≡ key_at img.now n w s }
{
    crate::words::key(img, n, w, s)
}

// The first `k` words of `src`, stored in `dst` from `b` on: by a loop, since `copy_from_slice` is a call of the C library's memmove.
pub fn store_words(dst: &mut [u32], b: usize, src: &[u32], k: usize)
    requires { (b + k ≤ length dst.old) × (k ≤ length src.now) }
    ensures { dst.new ≡ stored dst.old b src.now k }
{
    for j in 0..k {
        dst[b + j] = src[j];
    }
}

// A slot's contents, from one image to the other: a part of the source goes into that part of the target.
pub fn copy_contents(src: &[u32], dst: &mut [u32], n: usize, w: usize, s: usize)
    requires { Slots src.now dst.old n w s }
    ensures { dst.new ≡ store_line dst.old (contents_line n w s (contents src.now n w s)) }
{
    let b = contents_at(n, w, s);
    let e = b + w;
    crate::line::move_line(&src[b..e], &mut dst[b..e]);
}

// Every word 0.
pub fn clear(l: &mut [u32])
    ensures { l.new ≡ replicate (length l.old) 0 }
{
    l.fill(0);
}

// The `k` words from b on become 0.
pub fn clear_from(l: &mut [u32], b: usize, k: usize)
    requires { b + k ≤ length l.old }
    ensures { l.new ≡ stored l.old b (replicate k 0) k }
{
    clear(&mut l[b..b + k]);
}
