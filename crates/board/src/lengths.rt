// The lengths to allocate, in words; 0 where a size is out of range.
ghost use Rattle.std.specs.Prelude.{◌≡◌};
ghost use Rattle.board.specs.Calls.{image_length, transient_length};

#[tactic(auto, using(crate::specs::Exits::laws))]
pub fn board_image_words(slots: u32, words: u32) -> usize
    ensures { result ≡ image_length slots words }
{
    let n = slots as usize;
    let w = words as usize;
    if image::shape::sizes_ok(n, w) {
        image::shape::image_words(n, w)
    } else {
        0
    }
}

#[tactic(auto, using(crate::specs::Exits::laws))]
pub fn board_transient_words(slots: u32, threads: u32) -> usize
    ensures { result ≡ transient_length slots threads }
{
    let n = slots as usize;
    let t = threads as usize;
    if image::shape::sizes_ok(n, 2) {
        if t < 1 {
            return 0;
        }
        if 16 < t {
            return 0;
        }
        transient::notes::transient_words(n, t)
    } else {
        0
    }
}
