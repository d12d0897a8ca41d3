// How a slot of the working table is filled, and what the notes then say.
#![tactic(auto, using(crate::specs::Exits::fills))]

ghost use Rattle.std.specs.Prelude.{◌≡◌, ◌-◌, replicate, set, ◌∷◌};
ghost use Rattle.image.specs.Layout.{contents_at};
ghost use Rattle.image.specs.Requires.{Slot};
ghost use Rattle.transient.specs.Requires.{NoteOf};
ghost use Rattle.table.specs.Fill.{filled_slot, joined, taken, freed};
ghost use Rattle.table.specs.Requires.{SlotValue, set_value};

use image::header::Header;
use image::name::Name;
use transient::sizes::Sizes;

fn set_key(img: &mut [u32], z: Sizes, s: usize, key: u32)
    requires { Slot img.old z.n z.w s }
    ensures { img.new ≡ set img.old (contents_at z.n z.w s) key }
{
    img[image::contents::contents_at(z.n, z.w, s)] = key;
}

// The value words alone.
pub fn set_value(img: &mut [u32], z: Sizes, s: usize, value: &[u32])
    requires { SlotValue img.old z s value.now }
    ensures { img.new ≡ set_value z img.old s value.now }
{
    let b = image::contents::contents_at(z.n, z.w, s) + 1;
    image::contents::store_words(img, b, value, z.w - 1);
}

// Key, value and header of a slot.
pub fn fill(img: &mut [u32], z: Sizes, s: usize, h: Header, key: u32, value: &[u32])
    requires { SlotValue img.old z s value.now }
    ensures { img.new ≡ filled_slot z img.old s h (key ∷ value.now) }
{
    set_key(img, z, s, key);
    set_value(img, z, s, value);
    image::header::set_header(img, z.n, s, h);
}

// The same with a value of zeros.
pub fn fill_zeros(img: &mut [u32], z: Sizes, s: usize, h: Header, key: u32)
    requires { Slot img.old z.n z.w s }
    ensures { img.new ≡ filled_slot z img.old s h (key ∷ replicate (z.w - 1) 0) }
{
    set_key(img, z, s, key);
    let first = image::contents::contents_at(z.n, z.w, s) + 1;
    image::contents::clear_from(img, first, z.w - 1);
    image::header::set_header(img, z.n, s, h);
}

// Slot s is not retired, and waits in e.
fn join(transient: &mut [u32], z: Sizes, e: u32, s: usize)
    requires { NoteOf transient.old z s }
    ensures { transient.new ≡ joined z transient.old e s }
{
    transient::notes::set_retired(transient, z, s, 0);
    transient::lists::set_waiting(transient, z, e, s);
}

// What the notes say once slot s is taken in epoch e, for a name.
pub fn note_taken(transient: &mut [u32], z: Sizes, e: u32, s: usize, name: Name)
    requires { NoteOf transient.old z s }
    ensures { transient.new ≡ taken z transient.old e s name }
{
    transient::notes::set_last(transient, s as u32);
    join(transient, z, e, s);
    index::insert(transient, z, name, s);
}

// .. and once the slot of that name is freed at once.
pub fn note_freed(transient: &mut [u32], z: Sizes, e: u32, s: usize, name: Name)
    requires { NoteOf transient.old z s }
    ensures { transient.new ≡ freed z transient.old e s name }
{
    join(transient, z, e, s);
    index::remove(transient, z, name, s);
}
