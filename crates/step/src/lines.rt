// Header lines: one that goes from working to persistent, and a free one in both.
ghost use Rattle.std.specs.Prelude.{◌≡◌};
ghost use Rattle.image.specs.Line.{store_line};
ghost use Rattle.image.specs.Requires.{held_header, Slots};
ghost use Rattle.step.specs.Requires.{Freed};

use image::header::Header;
use transient::sizes::Sizes;

// A slot's header, as working holds it.
pub fn write_header(working: &[u32], persistent: &mut [u32], z: Sizes, s: usize)
    requires { Slots working.now persistent.old z.n z.w s }
    ensures { persistent.new ≡ store_line persistent.old (held_header working.now s) }
{
    image::header::copy_header(working, persistent, z.n, s);
}

// A slot becomes free in both images.
#[tactic(auto, using(crate::specs::Exits::lines))]
pub fn free_both(working: &mut [u32], persistent: &mut [u32], z: Sizes, s: usize)
    requires { Slots working.old persistent.old z.n z.w s }
    ensures { Freed working.old persistent.old s working.new persistent.new }
{
    image::header::set_header(working, z.n, s, Header::free());
    image::header::set_header(persistent, z.n, s, Header::free());
}
