// The words of a line, which go from one image into the other with nothing in between.
#![tactic(auto, using(crate::specs::Moving::movings))]

ghost use Rattle.std.specs.Prelude.{◌≡◌, ◌+◌, ◌<◌, ◌≤◌, length};
ghost use Rattle.image.specs.Moving.{four_moved, FoursMoved};

// Four words from `j` on. They are loaded before they are stored, so that they go as one.
fn move_four(src: &[u32], dst: &mut [u32], j: usize)
    requires { (j + 4 ≤ length src.now) × (j + 4 ≤ length dst.old) }
    ensures { dst.new ≡ four_moved dst.old src.now j }
{
    let first = src[j];
    let second = src[j + 1];
    let third = src[j + 2];
    let fourth = src[j + 3];
    dst[j] = first;
    dst[j + 1] = second;
    dst[j + 2] = third;
    dst[j + 3] = fourth;
}

// As many fours as there are, at most two. How many words have gone?
fn move_fours(src: &[u32], dst: &mut [u32]) -> usize
    requires { (length src.now ≡ length dst.old) × (length dst.old < 12) }
    ensures { FoursMoved dst.old src.now result dst.new }
{
    if dst.len() < 4 {
        return 0;
    }
    move_four(src, dst, 0);
    if dst.len() < 8 {
        return 4;
    }
    move_four(src, dst, 4);
    8
}

// Up to three words.
fn move_few(src: &[u32], dst: &mut [u32])
    requires { (length src.now ≡ length dst.old) × (length dst.old < 4) }
    ensures { dst.new ≡ src.now }
{
    if dst.len() < 1 {
        return;
    }
    dst[0] = src[0];
    if dst.len() < 2 {
        return;
    }
    dst[1] = src[1];
    if dst.len() < 3 {
        return;
    }
    dst[2] = src[2];
}

// A line's words into the place lent for them. A line has at most nine.
pub fn move_line(src: &[u32], dst: &mut [u32])
    requires { (length src.now ≡ length dst.old) × (length dst.old < 12) }
    ensures { dst.new ≡ src.now }
{
    let j = move_fours(src, dst);
    move_few(&src[j..], &mut dst[j..]);
}
