// What the notes say once a slot is superseded.
ghost use Rattle.std.specs.Prelude.{◌≡◌};
ghost use Rattle.transient.specs.Layout.{set_retired};
ghost use Rattle.table.specs.Fill.{taken};
ghost use Rattle.jobs.specs.Requires.{Superseding};

use image::name::Name;
use transient::sizes::Sizes;

// Slot f is taken in e, for a name, and slot s retired in it.
#[tactic(auto, using(crate::specs::Exits::laws))]
pub fn note_superseded(transient: &mut [u32], z: Sizes, e: u32, s: usize, f: usize, name: Name)
    requires { Superseding transient.old z s f }
    ensures { transient.new ≡ set_retired z (taken z transient.old e f name) s e }
{
    table::fill::note_taken(transient, z, e, f, name);
    transient::notes::set_retired(transient, z, s, e);
}
