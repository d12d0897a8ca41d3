// A first version takes a slot.
ghost use Rattle.std.specs.Prelude.{◌≡◌};
ghost use Rattle.transient.specs.Store.{table};
ghost use Rattle.jobs.specs.Job.{made};
ghost use Rattle.jobs.specs.Requires.{Placed};

use image::header::Header;
use image::name::Name;
use transient::sizes::Sizes;

// Slot s holds an ALLOC of epoch e, with the next uid.
#[tactic(auto, using(crate::specs::Exits::laws))]
pub fn make_at(
    working: &mut [u32],
    transient: &mut [u32],
    z: Sizes,
    e: u32,
    s: usize,
    name: Name,
    value: &[u32],
)
    requires { Placed working.old transient.old z s value.now }
    ensures { table working.new transient.new ≡ made z (table working.old transient.old) e s name value.now }
{
    let uid = transient::notes::next_uid(transient);
    let h = Header::fresh(e, uid, name.board);
    table::fill::fill(working, z, s, h, name.key, value);
    table::fill::note_taken(transient, z, e, s, name);
    transient::notes::set_next_uid(transient, uid + 1);
}
