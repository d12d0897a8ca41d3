// What every call but format and recover judges first: refusals 1 and 2.
#![tactic(auto, using(crate::specs::Exits::laws, crate::specs::Exits::entries))]

ghost use Rattle.std.specs.Prelude.{◌≡◌, ◌≤◌, length};
ghost use Rattle.transient.specs.Store.{store};
ghost use Rattle.transient.specs.Entry.{images_fit, next_ok, notes_fit, opens_ok, entry_check};
ghost use Rattle.transient.specs.Layout.{head_words};
ghost use Rattle.transient.specs.Requires.{Paired, sizes_alike, sizes_fit, open_ok, clocks_fit, Threads, Fitting};

use reply::Refusal;

// Do two images say the same sizes?
fn alike(working: &[u32], persistent: &[u32]) -> bool
    requires { Paired working.now persistent.now }
    ensures { result ≡ sizes_alike working.now persistent.now }
{
    if persistent[0] != working[0] {
        return false;
    }
    persistent[1] == working[1]
}

// The shape of one image is judged; the other is as long and says the same sizes, so it has that shape too.
fn images_fit(working: &[u32], persistent: &[u32]) -> bool
    ensures { result ≡ images_fit working.now persistent.now }
{
    if image::shape::shape_ok(working) {
        if persistent.len() != working.len() {
            return false;
        }
        alike(working, persistent)
    } else {
        false
    }
}

// Is a next uid or a next order number in range?
fn next_ok(x: u32) -> bool
    ensures { result ≡ next_ok x }
{
    if x < 1 {
        return false;
    }
    x <= image::shape::MOST_NUMBER + 1
}

fn notes_fit(transient: &[u32], n: usize) -> bool
    requires { head_words ≤ length transient.now }
    ensures { result ≡ notes_fit transient.now n }
{
    if crate::notes::noted_slots(transient) != n {
        return false;
    }
    if n <= crate::notes::last_taken(transient) {
        return false;
    }
    if n <= crate::notes::place_slot(transient) {
        return false;
    }
    if next_ok(crate::notes::next_uid(transient)) {
        next_ok(crate::notes::next_order(transient))
    } else {
        false
    }
}

fn sizes_fit(working: &[u32], persistent: &[u32], transient: &[u32]) -> bool
    ensures { result ≡ sizes_fit working.now persistent.now transient.now }
{
    if images_fit(working, persistent) {
        let n = working[0] as usize;
        if crate::notes::threads_ok(transient.len(), n) {
            notes_fit(transient, n)
        } else {
            false
        }
    } else {
        false
    }
}

fn open_ok(c: u32, e: u32) -> bool
    ensures { result ≡ open_ok c e }
{
    if e == 0 {
        return true;
    }
    if e == c {
        return true;
    }
    e as usize + 1 == c as usize
}

fn opens_ok(transient: &[u32], t: usize, c: u32) -> bool
    requires { Threads transient.now t }
    ensures { result ≡ opens_ok transient.now t c }
{
    for thread in 0..t {
        let e = transient[crate::notes::HEAD + thread];
        // Most threads have no operation open.
        if e == 0 {
            continue;
        }
        if !open_ok(c, e) {
            return false;
        }
    }
    true
}

fn clocks_fit(working: &[u32], persistent: &[u32], transient: &[u32], t: usize) -> bool
    requires { Fitting working.now persistent.now transient.now t }
    ensures { result ≡ clocks_fit working.now persistent.now transient.now t }
{
    let c = image::shape::clock(working);
    if image::shape::clock_ok(c) {
        if persistent[2] != c {
            return false;
        }
        opens_ok(transient, t, c)
    } else {
        false
    }
}

pub fn check(working: &[u32], persistent: &[u32], transient: &[u32]) -> Result<(), Refusal>
    ensures { result ≡ entry_check (store working.now persistent.now transient.now) }
{
    // Lent anew, the slices come in registers; one that is only handed on comes through memory.
    let working = &working[..];
    let persistent = &persistent[..];
    let transient = &transient[..];
    if sizes_fit(working, persistent, transient) {
        let t = crate::notes::threads(transient.len(), working[0] as usize);
        if clocks_fit(working, persistent, transient, t) {
            Ok(())
        } else {
            Err(Refusal::BadClock)
        }
    } else {
        Err(Refusal::BadSizes)
    }
}
