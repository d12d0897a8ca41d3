// The sizes of a store, read once by a call that has judged them.
ghost use Rattle.std.specs.Prelude.{◌≡◌};
ghost use Rattle.transient.specs.Store.{table, sizes_of};
ghost use Rattle.transient.specs.Requires.{Sizable};

// N slots, W words of contents, T threads.
#[derive(Clone, Copy)]
pub struct Sizes {
    pub n: usize,
    pub w: usize,
    pub t: usize,
}

#[tactic(auto, using(crate::specs::Exits::laws))]
pub fn read_sizes(working: &[u32], transient: &[u32]) -> Sizes
    requires { Sizable working.now transient.now }
    ensures { result ≡ sizes_of (table working.now transient.now) }
{
    let n = working[0] as usize;
    let w = working[1] as usize;
    let t = crate::notes::threads(transient.len(), n);
    Sizes { n, w, t }
}
