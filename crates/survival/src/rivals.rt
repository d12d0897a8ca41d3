// A kept slot among those of its uid before it: the largest epoch wins, and a winner that is a payload survives.
#![tactic(auto, using(crate::specs::Rivals::admissions))]

ghost use Rattle.std.specs.Prelude.{◌≡◌};
ghost use Rattle.search.specs.Some.{any_of};
ghost use Rattle.chains.specs.Chains.{newer_in};
ghost use Rattle.chains.specs.Requires.{FromKin};
ghost use Rattle.survival.specs.Rivals.{Flags, Outdone, Admits, Rival, Met, Admitted};

use image::header::Header;

// Is there a slot of that uid and a larger epoch?
#[tactic(auto, using(crate::specs::Rivals::newer, chains::specs::Walking::meetings))]
fn beaten(l: &[u32], m: usize, i: usize, from: usize, x: u32, y: u32) -> bool
    requires { FromKin m i from x l.now }
    ensures { result ≡ any_of (newer_in l.now x y) i }
{
    let mut k = from;
    while k != 0 {
        if y < chains::label(l, m, k - 1) {
            return true;
        }
        k = chains::next_kin(l, m, i, k, x);
    }
    false
}

// Slots of that uid and a smaller epoch do not survive.
#[tactic(auto, using(crate::specs::Rivals::outdoes))]
fn outdo(l: &[u32], flags: &mut [bool; 1024], m: usize, i: usize, from: usize, x: u32, y: u32)
    requires from_kin { FromKin m i from x l.now }
    requires flags { Flags flags.old }
    ensures { Outdone l.now x y i flags.old flags.new }
{
    let mut k = from;
    while k != 0 {
        let next = chains::next_kin(l, m, i, k, x);
        if chains::label(l, m, k - 1) < y {
            flags[k - 1] = false;
        }
        k = next;
    }
}

// Some slot before it has its uid, the highest at the place `k`. Has one its epoch too?
fn rival(l: &[u32], flags: &mut [bool; 1024], m: usize, s: usize, k: usize, h: Header) -> bool
    requires { Rival m s k l.now h flags.old }
    ensures { Met l.now s h flags.old flags.new result }
{
    outdo(l, flags, m, s, k, h.uid, h.epoch);
    let twice = chains::paired_from(l, m, s, k, h.uid, h.epoch);
    if beaten(l, m, s, k, h.uid, h.epoch) {
        flags[s] = false;
        return twice;
    }
    flags[s] = h.kind <= Header::UPDATE;
    twice
}

// What a kept slot meets. Most are the only one of their uid.
#[inline(always)]
fn meet(l: &[u32], flags: &mut [bool; 1024], m: usize, s: usize, h: Header) -> bool
    requires { Admits m s l.now h flags.old }
    ensures { Met l.now s h flags.old flags.new result }
{
    let k = chains::kin(l, m, s, h.uid);
    if k == 0 {
        flags[s] = h.kind <= Header::UPDATE;
        return false;
    }
    rival(l, flags, m, s, k, h)
}

// A kept slot after those before it. Is there one of its uid and epoch among them?
#[inline(always)]
pub fn admit(l: &mut [u32], flags: &mut [bool; 1024], m: usize, s: usize, h: Header) -> bool
    requires { Admits m s l.old h flags.old }
    ensures { Admitted m l.old s h flags.old flags.new l.new result }
{
    let twice = meet(l, flags, m, s, h);
    chains::link(l, m, s, h.uid, h.epoch);
    twice
}
