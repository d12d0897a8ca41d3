// The image lister (01): reads an image from standard input and prints its clock and its survivors.
#![tactic(auto)]

ghost use Rattle.std.specs.Prelude.{◌≡◌, ◌+◌, ◌*◌, ◌≤◌, ◌++◌, length};
ghost use Rattle.image.specs.Layout.{header, contents};
ghost use Rattle.image.specs.Requires.{Slot};
ghost use Rattle.survival.specs.Requires.{AllMarked};
ghost use Rattle.lister.specs.Printed.{head_line, slot_line, slot_lines, image_listing, printed_listing};
ghost use Rattle.lister.specs.Requires.{line_end};
ghost use Rattle.lister.specs.Exits.{listing-printed};

use console::Report;
use image::header::Header;
use text::Text;

#[tactic(auto, using(crate::specs::Exits::laws))]
fn push_head<const N: usize>(out: &mut Text<N>, clock: u32, survivors: usize)
    requires { length out.old + 64 ≤ N }
    ensures value { out.new ≡ out.old ++ head_line clock survivors }
    ensures len { length out.new ≤ length out.old + 64 }
{
    out.push_figure(b"clock ", u64::from(clock));
    out.push_figure(b" survivors ", survivors as u64);
    out.push(b"\n");
}

// The end of a line, which tells an entry of the queue from a job.
#[tactic(auto, using(crate::specs::Exits::slots))]
fn push_end<const N: usize>(out: &mut Text<N>, board: u32)
    requires { length out.old + 7 ≤ N }
    ensures value { out.new ≡ out.old ++ line_end board }
    ensures len { length out.new ≤ length out.old + 7 }
{
    if board == Header::QUEUE {
        out.push(b" queue\n");
    } else {
        out.push(b"\n");
    }
}

// Slot, key and value words.
#[tactic(auto, using(crate::specs::Exits::slots))]
fn push_slot<const N: usize>(out: &mut Text<N>, img: &[u32], n: usize, w: usize, s: usize)
    requires slot { Slot img.now n w s }
    requires in_bounds { length out.old + 256 ≤ N }
    ensures value { out.new ≡ out.old ++ slot_line (header img.now s).board s (contents img.now n w s) }
    ensures len { length out.new ≤ length out.old + 256 }
{
    let start = image::contents::contents_at(n, w, s);
    let end = start + w;
    out.push_number(s as u64);
    out.push_spaced(&img[start..end]);
    push_end(out, image::header::board_at(img, n, s));
}

// The lines of the slots that survive.
#[tactic(auto, using(crate::specs::Exits::slots))]
fn push_survivors<const N: usize>(
    out: &mut Text<N>,
    img: &[u32],
    flags: &[bool; 1024],
    n: usize,
    w: usize,
)
    requires all_marked { AllMarked img.now n w flags.now }
    requires in_bounds { length out.old + 256 * n ≤ N }
    ensures { out.new ≡ out.old ++ slot_lines img.now n w n }
{
    for s in 0..n {
        let survives = flags[s];
        if survives {
            push_slot(out, img, n, w, s);
        }
    }
}

// The listing: a first line of 64 bytes, and 1,024 lines of 256 at most.
struct Listing;

impl<const N: usize> Report<N> for Listing {
    ghost printed = { printed_listing };

    ghost text = { image_listing };

    ghost most = { 262208 };

    #[tactic(auto, using(crate::specs::Exits::laws))]
    fn push(out: &mut Text<N>, img: &[u32]) {
        let n = img[0] as usize;
        let w = img[1] as usize;
        let flags = acceptance::survivors(img, n, w);
        let survivors = survival::survivor_count(img, &flags, n);
        push_head(out, image::shape::clock(img), survivors);
        push_survivors(out, img, &flags, n, w);
    }

    ghost prints = { listing-printed };
}

fn main(rt: HostRuntime) {
    let mut out = Text::<262208>::new();
    console::run::<262208, Listing, _, _>(&mut rt.stdin(), &mut rt.stdout(), &mut out);
}
