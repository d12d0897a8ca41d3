// The first pass over an image's slots: each header is judged, and kept ones meet those of their uid before them.
ghost use Rattle.std.specs.Prelude.{◌≡◌, ◌≤◌, ◌&&◌, nat_le};
ghost use Rattle.acceptance.specs.Ordered.{ordered};
ghost use Rattle.acceptance.specs.Judging.{Judges, JudgesFilled, Over, JudgedFine, JudgedSlot, Judged, Room};

use image::header::Header;
use image::words::Words;
use reply::Refusal;

// Is it from `low` to `most`? One comparison: what is below `low` wraps to more.
#[tactic(auto, using(crate::specs::Ordered::orders))]
fn within(x: u32, low: u32, most: u32) -> bool
    requires { low ≤ most }
    ensures { result ≡ (nat_le low x && nat_le x most) }
{
    std::num::wrapping_sub_u32(x, low) <= most - low
}

// No word of it is 0, and all are in range.
#[tactic(auto, using(crate::specs::Ordered::orders))]
fn ordered(h: Header, c: u32) -> bool
    ensures { result ≡ ordered c h }
{
    if within(h.kind, Header::ALLOC, Header::DELETE) {
        if within(h.board, Header::JOBS, Header::QUEUE) {
            if within(h.uid, 1, image::shape::MOST_NUMBER) {
                if h.epoch < 2 {
                    return false;
                }
                return h.epoch <= c;
            }
        }
    }
    false
}

// A slot that is not kept is on no chain, and does not survive.
fn pass_over(l: &mut [u32], flags: &mut [bool; 1024], m: usize, s: usize)
    requires { Judges m s l.old flags.old }
    ensures { Over l.old s flags.old flags.new l.new }
{
    chains::skip(l, m, s);
    flags[s] = false;
}

// A header of four nonzero words, all in range. Is its version there before it?
#[inline(always)]
#[tactic(auto, using(crate::specs::Judging::judgements))]
fn judge_filled(
    l: &mut [u32],
    flags: &mut [bool; 1024],
    m: usize,
    s: usize,
    c: u32,
    h: Header,
) -> bool
    requires { JudgesFilled m s c h l.old flags.old }
    ensures { JudgedFine m l.old s c h flags.old flags.new l.new result }
{
    if h.epoch as usize + 2 <= c as usize {
        return survival::rivals::admit(l, flags, m, s, h);
    }
    pass_over(l, flags, m, s);
    false
}

// One slot, after `s` slots. Is its version there before it?
#[inline(always)]
#[tactic(auto, using(crate::specs::Judging::judgements))]
fn judge_slot(
    l: &mut [u32],
    flags: &mut [bool; 1024],
    m: usize,
    s: usize,
    c: u32,
    h: Header,
) -> Result<bool, Refusal>
    requires { Judges m s l.old flags.old }
    ensures { JudgedSlot m l.old s c h flags.old flags.new l.new result }
{
    if ordered(h, c) {
        return Ok(judge_filled(l, flags, m, s, c, h));
    }
    if h.has_zero() {
        pass_over(l, flags, m, s);
        return Ok(false);
    }
    Err(Refusal::BadSlot)
}

// All slots of an image. Is a version there twice?
#[tactic(auto, using(crate::specs::Judging::judgings))]
pub fn judge<W: Words>(
    img: W,
    l: &mut [u32],
    flags: &mut [bool; 1024],
    m: usize,
    n: usize,
) -> Result<bool, Refusal>
    requires { Room (W.words img) n m l.old flags.old }
    ensures { Judged (W.words img) n m l.new flags.new result }
{
    let c = img.word(2);
    let mut twice = false;
    for s in 0..n {
        let h = image::words::header(img, n, s);
        twice |= judge_slot(l, flags, m, s, c, h)?;
    }
    Ok(twice)
}
