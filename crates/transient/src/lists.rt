// The waiting lists: a bit for each slot, in 32 words of 32 bits a list.
#![tactic(auto, using(crate::specs::ListExits::lists))]

ghost use Rattle.std.specs.Prelude.{◌≡◌, ◌+◌, ◌-◌, ◌%◌, ◌<◌, min};
ghost use Rattle.search.specs.From.{first_from};
ghost use Rattle.transient.specs.Layout.{is_waiting, with_bit, set_waiting, emptied};
ghost use Rattle.transient.specs.Requires.{InIndex, Notes, NoteOf, Listed, Worded};

use crate::sizes::Sizes;

// The bits of a word, and the words of a list.
const BITS: usize = 32;

const WORDS: usize = 32;

// Where e's list begins, that of the odd epochs behind that of the even ones.
fn list_at(e: u32) -> usize
    ensures { Listed e result }
{
    crate::notes::LISTS + WORDS * (e % 2) as usize
}

// Where e's list has the word of slot s.
fn word_at(z: Sizes, e: u32, s: usize) -> usize
    requires { InIndex z s }
    ensures { Worded e s result }
{
    list_at(e) + s / BITS
}

// Where the slots of that word end; the last word may have fewer.
fn word_to(z: Sizes, s: usize) -> usize
    requires { InIndex z s }
    ensures { result ≡ min (s - s % 32 + 32) z.n }
{
    (s - s % BITS + BITS).min(z.n)
}

fn with_bit(x: u32, j: u32) -> u32
    requires { j < 32 }
    ensures { result ≡ with_bit x j }
{
    if (x >> j) % 2 == 1 {
        return x;
    }
    x + (1 << j)
}

// Slot s joins e's list.
pub fn set_waiting(transient: &mut [u32], z: Sizes, e: u32, s: usize)
    requires { NoteOf transient.old z s }
    ensures { transient.new ≡ set_waiting transient.old e s }
{
    let at = word_at(z, e, s);
    transient[at] = with_bit(transient[at], (s % BITS) as u32);
}

// The first slot from p on that waits in e's list. Where no bit is left in a word, the rest of it is passed over.
#[tactic(auto, using(crate::specs::ListExits::walks))]
pub fn waiting_from(transient: &[u32], z: Sizes, e: u32, p: usize) -> Option<usize>
    requires { NoteOf transient.now z p }
    ensures { result ≡ first_from (is_waiting transient.now e) z.n p }
{
    let mut s = p;
    while s < z.n {
        let x = transient[word_at(z, e, s)] >> ((s % BITS) as u32);
        if x == 0 {
            s = word_to(z, s);
        } else {
            if x % 2 == 1 {
                return Some(s);
            }
            s += 1;
        }
    }
    None
}

// Nothing waits in e's list.
pub fn empty_list(transient: &mut [u32], z: Sizes, e: u32)
    requires { Notes transient.old z }
    ensures { transient.new ≡ emptied transient.old e }
{
    image::contents::clear_from(transient, list_at(e), WORDS);
}
