// The head count (02, No. 1): reads an image from standard input and prints how many slots are in each class, and the sum.
#![tactic(auto)]

ghost use Rattle.std.specs.Prelude.{◌≡◌, ◌+◌, ◌≤◌, ◌++◌, length};
ghost use Rattle.headcount.specs.Printed.{count_line, image_count, printed_count};
ghost use Rattle.headcount.specs.Exits.{count-printed};

use classes::HeadCount;
use console::Report;
use text::Text;

// The four figures and their sum.
#[tactic(auto, using(crate::specs::Exits::laws))]
fn push_count<const N: usize>(out: &mut Text<N>, c: HeadCount)
    requires { length out.old + 160 ≤ N }
    ensures { out.new ≡ out.old ++ count_line c }
{
    out.push_figure(b"free ", u64::from(c.free));
    out.push_figure(b" surviving ", u64::from(c.surviving));
    out.push_figure(b" kept ", u64::from(c.kept));
    out.push_figure(b" new ", u64::from(c.new));
    out.push_figure(b" total ", classes::total(c));
    out.push(b"\n");
}

// The line of the count, which is 160 bytes at most.
struct Count;

impl<const N: usize> Report<N> for Count {
    ghost printed = { printed_count };

    ghost text = { image_count };

    ghost most = { 160 };

    #[tactic(auto, using(crate::specs::Exits::laws))]
    fn push(out: &mut Text<N>, img: &[u32]) {
        let n = img[0] as usize;
        let w = img[1] as usize;
        let flags = acceptance::survivors(img, n, w);
        push_count(out, classes::head_count(img, &flags, n));
    }

    ghost prints = { count-printed };
}

fn main(rt: HostRuntime) {
    let mut out = Text::<160>::new();
    console::run::<160, Count, _, _>(&mut rt.stdin(), &mut rt.stdout(), &mut out);
}
