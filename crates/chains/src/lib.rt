// Slots chained by their numbers: uids, or keys. A slot's number and a label beside it are kept here, so that a walk looks at nothing else.
//
// The memory lent for m spots and m slots is four words for each: the head of the spot's chain, then for the slot the next one below it on
// its chain, its number, which is 0 where it is not linked, and its label. A place in a chain is one more than a slot, and 0 at its end.
#![tactic(auto, using(crate::specs::Exits::laws))]

ghost use Rattle.std.specs.Prelude.{◌≡◌, ◌+◌, ◌*◌, ◌-◌, set};
ghost use Rattle.search.specs.Some.{any_of};
ghost use Rattle.chains.specs.Chains.{spot, head_of, number_of, label_of, below_of, linked_at, pair_in, Lent, Blank, Kin};
ghost use Rattle.chains.specs.Requires.{Spots, At, AllLinked, FromKin, OnChain, OnKin};

// The spot of a number: its higher bits are folded in, then the product's upper half counts, so that numbers with a common step mostly spread.
pub fn spot(m: usize, x: u32) -> usize
    requires { Spots m }
    ensures { result ≡ spot m x }
{
    let a = x as usize;
    (a + a / 8192) * 2654435769 % 4294967296 * m / 4294967296
}

// The highest place of the chain on which `x` falls.
fn head(l: &[u32], m: usize, x: u32) -> usize
    requires { Lent m l.now }
    ensures { result ≡ head_of l.now (spot m x) }
{
    let b = spot(m, x);
    l[4 * b] as usize
}

fn below(l: &[u32], m: usize, s: usize) -> usize
    requires { At m s l.now }
    ensures { result ≡ below_of l.now s }
{
    l[4 * s + 1] as usize
}

fn number(l: &[u32], m: usize, s: usize) -> u32
    requires { At m s l.now }
    ensures { result ≡ number_of l.now s }
{
    l[4 * s + 2]
}

pub fn label(l: &[u32], m: usize, s: usize) -> u32
    requires { At m s l.now }
    ensures { result ≡ label_of l.now s }
{
    l[4 * s + 3]
}

// Every chain becomes empty.
pub fn clear(l: &mut [u32], m: usize)
    requires { Lent m l.old }
    ensures { Blank m l.new }
{
    for b in 0..m {
        l[4 * b] = 0;
    }
}

// Slot `s` is not linked.
pub fn skip(l: &mut [u32], m: usize, s: usize)
    requires { At m s l.old }
    ensures { l.new ≡ set l.old (4 * s + 2) 0 }
{
    l[4 * s + 2] = 0;
}

// Slot `s` becomes the head of the chain of its number.
pub fn link(l: &mut [u32], m: usize, s: usize, x: u32, y: u32)
    requires { At m s l.old }
    ensures { l.new ≡ linked_at m l.old s x y }
{
    let b = spot(m, x);
    l[4 * s + 1] = l[4 * b];
    l[4 * s + 2] = x;
    l[4 * s + 3] = y;
    l[4 * b] = (s + 1) as u32;
}

// The highest place of the number `x`, from the place `from` of its chain on down.
#[tactic(auto, using(crate::specs::Exits::laws, crate::specs::Walking::walks))]
fn kin_from(l: &[u32], m: usize, i: usize, from: usize, x: u32) -> usize
    requires { OnChain m i from x l.now }
    ensures { Kin l.now x from result }
{
    let mut k = from;
    while k != 0 {
        if number(l, m, k - 1) == x {
            return k;
        }
        k = below(l, m, k - 1);
    }
    0
}

// The highest place of the number among the `i` slots that were linked or skipped.
#[tactic(auto, using(crate::specs::Exits::laws, crate::specs::Walking::walks))]
pub fn kin(l: &[u32], m: usize, i: usize, x: u32) -> usize
    requires { AllLinked m i x l.now }
    ensures { Kin l.now x i result }
{
    kin_from(l, m, i, head(l, m, x), x)
}

// The next place of the number below the place `k`.
#[tactic(auto, using(crate::specs::Exits::laws, crate::specs::Walking::walks))]
pub fn next_kin(l: &[u32], m: usize, i: usize, k: usize, x: u32) -> usize
    requires { OnKin m i k x l.now }
    ensures { Kin l.now x (k - 1) result }
{
    kin_from(l, m, i, below(l, m, k - 1), x)
}

// Is there a slot of that number and label, from the highest place of the number on?
#[tactic(auto, using(crate::specs::Exits::laws, crate::specs::Exits::pairs, crate::specs::Walking::meetings))]
pub fn paired_from(l: &[u32], m: usize, i: usize, from: usize, x: u32, y: u32) -> bool
    requires { FromKin m i from x l.now }
    ensures { result ≡ any_of (pair_in l.now x y) i }
{
    let mut k = from;
    while k != 0 {
        if label(l, m, k - 1) == y {
            return true;
        }
        k = next_kin(l, m, i, k, x);
    }
    false
}

// Is there a slot of that number and label?
pub fn paired(l: &[u32], m: usize, i: usize, x: u32, y: u32) -> bool
    requires { AllLinked m i x l.now }
    ensures { result ≡ any_of (pair_in l.now x y) i }
{
    paired_from(l, m, i, kin(l, m, i, x), x, y)
}
