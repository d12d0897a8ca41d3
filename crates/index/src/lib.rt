// The index in the notes: each filled slot stands on the chain of its name's bucket, in slot order.
//
// A link is a word, one more than the slot that it leads to. One that leads to no slot further up ends its chain, so every walk ends.
#![tactic(auto, using(crate::specs::Exits::leaves))]

ghost use Rattle.std.specs.Prelude.{◌≡◌, ◌+◌, ◌<◌};
ghost use Rattle.image.specs.Layout.{most_slots};
ghost use Rattle.chains.specs.Requires.{Spots};
ghost use Rattle.transient.specs.Layout.{bucket_at, link_at};
ghost use Rattle.transient.specs.Requires.{Shaped, ShapedSlot, NoteOf};
ghost use Rattle.index.specs.Index.{bucket_of, place_of, inserted, removed, rebuilt};
ghost use Rattle.index.specs.Requires.{Leading, Chained, Bucket, Splicing, spliced, leads_to, onward, entered_at};

use image::name::Name;
use transient::sizes::Sizes;

// The bucket of a name, one of n.
fn bucket(n: usize, name: Name) -> usize
    requires { Spots n }
    ensures { result ≡ bucket_of n name }
{
    let x = name.key as usize * 23208431 + name.board as usize * 2246822519;
    chains::spot(n, (x % 4294967296) as u32)
}

// The slot that the link at `at` leads to, from `least` on and below `end`; else `end`.
fn follow(transient: &[u32], at: usize, least: usize, end: usize) -> usize
    requires { Leading transient.now at }
    ensures { result ≡ leads_to transient.now at least end }
{
    let link = transient[at] as usize;
    if link <= least {
        return end;
    }
    if end < link {
        return end;
    }
    link - 1
}

// The first slot on the chain of a name, or n.
pub fn first_on(transient: &[u32], z: Sizes, name: Name) -> usize
    requires { Chained transient.now z }
    ensures { result ≡ leads_to transient.now (bucket_at z (bucket_of z.n name)) 0 z.n }
{
    let at = transient::notes::bucket_at(z, bucket(z.n, name));
    follow(transient, at, 0, z.n)
}

// The slot that follows slot s on its chain, or n.
pub fn next_on(transient: &[u32], z: Sizes, s: usize) -> usize
    requires { NoteOf transient.now z s }
    ensures { result ≡ leads_to transient.now (link_at z s) (s + 1) z.n }
{
    follow(transient, transient::notes::link_at(z, s), s + 1, z.n)
}

// Where the link stands, on the chain of a bucket, that leads past the slots below s.
#[tactic(auto, using(crate::specs::Exits::places))]
fn place(transient: &[u32], z: Sizes, b: usize, s: usize) -> usize
    requires { Bucket transient.now z b s }
    ensures { result ≡ place_of z transient.now b s }
{
    let mut at = transient::notes::bucket_at(z, b);
    let mut t = follow(transient, at, 0, s);
    while t < s {
        at = transient::notes::link_at(z, t);
        t = follow(transient, at, t + 1, s);
    }
    at
}

// The same on the chain of a name.
#[tactic(auto, using(crate::specs::Exits::joins))]
fn place_of(transient: &[u32], z: Sizes, name: Name, s: usize) -> usize
    requires { NoteOf transient.now z s }
    ensures { result ≡ place_of z transient.now (bucket_of z.n name) s }
{
    place(transient, z, bucket(z.n, name), s)
}

// The word at `at` goes to `to`, and `link` takes its place.
#[tactic(auto, using(crate::specs::Exits::joins))]
fn splice(transient: &mut [u32], at: usize, to: usize, link: u32)
    requires { Splicing transient.old at to }
    ensures { transient.new ≡ spliced transient.old at to link }
{
    transient[to] = transient[at];
    transient[at] = link;
}

// Slot s joins the chain of a name.
#[tactic(auto, using(crate::specs::Exits::joins))]
pub fn insert(transient: &mut [u32], z: Sizes, name: Name, s: usize)
    requires { NoteOf transient.old z s }
    ensures { transient.new ≡ inserted z transient.old name s }
{
    let at = place_of(transient, z, name, s);
    let to = transient::notes::link_at(z, s);
    splice(transient, at, to, (s + 1) as u32);
}

// A link out of slot s, or 0 where it does not lead on.
fn onward(s: usize, link: u32) -> u32
    requires { s < most_slots }
    ensures { result ≡ onward s link }
{
    if s + 1 < link as usize { link } else { 0 }
}

// Slot s leaves the chain of a name.
#[tactic(auto, using(crate::specs::Exits::joins))]
pub fn remove(transient: &mut [u32], z: Sizes, name: Name, s: usize)
    requires { NoteOf transient.old z s }
    ensures { transient.new ≡ removed z transient.old name s }
{
    let link = transient::notes::link_at(z, s);
    let next = onward(s, transient[link]);
    let at = place_of(transient, z, name, s);
    transient[at] = next;
}

// A filled slot joins the chain of its name.
#[tactic(auto, using(crate::specs::Exits::rebuilds))]
fn enter(working: &[u32], transient: &mut [u32], z: Sizes, s: usize)
    requires { ShapedSlot working.now transient.old z s }
    ensures { transient.new ≡ entered_at z working.now transient.old s }
{
    let h = image::header::header_at(working, z.n, s);
    if h.is_filled() {
        insert(transient, z, image::name::name_at(working, z.n, z.w, s), s);
    }
}

// Every filled slot does, the highest first: each then comes first on its chain.
#[tactic(auto, using(crate::specs::Exits::rebuilds))]
pub fn rebuild(working: &[u32], transient: &mut [u32], z: Sizes)
    requires { Shaped working.now transient.old z }
    ensures { transient.new ≡ rebuilt z working.now transient.old z.n }
{
    for s in (0..z.n).rev() {
        enter(working, transient, z, s);
    }
}
