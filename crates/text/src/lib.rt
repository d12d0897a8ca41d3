// Lines of text, put together in a buffer: words, and numbers in decimal.
#![tactic(auto)]

ghost use Rattle.std.specs.Prelude.{◌≡◌, [], ◌++◌, ◌+◌, ◌*◌, ◌≤◌, length};
ghost use Rattle.text.specs.Text.{decimal, spaced};
ghost use Rattle.text.specs.Putting.{Appended};

use std::marker::Model;

// Puts a part behind the first `at` bytes of a lent buffer, and says where it ends.
#[tactic(auto, using(crate::specs::Putting::laws))]
pub fn put(out: &mut [u8], at: usize, part: &[u8]) -> usize
    requires { at + length part.now ≤ length out.old }
    ensures { Appended out.old at part.now out.new result }
{
    let end = at + part.len();
    out[at..end].copy_from_slice(part);
    end
}

// A number in decimal: 20 digits at most. By `io::decimal`, since `write!` may fail for all that its contract says.
#[tactic(auto, using(crate::specs::Putting::laws))]
pub fn put_number(out: &mut [u8], at: usize, x: u64) -> usize
    requires { at + 20 ≤ length out.old }
    ensures { Appended out.old at (decimal x) out.new result }
{
    let mut digits = [0u8; 20];
    let k = io::decimal(x, &mut digits);
    put(out, at, &digits[..k])
}

// A word, and behind it a number.
#[tactic(auto, using(crate::specs::Putting::laws))]
pub fn put_figure(out: &mut [u8], at: usize, word: &[u8], x: u64) -> usize
    requires { at + length word.now + 20 ≤ length out.old }
    ensures { Appended out.old at (word.now ++ decimal x) out.new result }
{
    let k = put(out, at, word);
    put_number(out, k, x)
}

// Numbers, a space before each.
#[tactic(auto, using(crate::specs::Putting::loops))]
pub fn put_spaced(out: &mut [u8], at: usize, numbers: &[u32]) -> usize
    requires { at + 21 * length numbers.now ≤ length out.old }
    ensures { Appended out.old at (spaced numbers.now) out.new result }
{
    let mut k = at;
    for x in numbers {
        k = put_figure(out, k, b" ", u64::from(*x));
    }
    k
}

// The text that is written so far: the first `len` of N bytes.
#[derive(Drop)]
pub struct Text<const N: usize> {
    bytes: [u8; N],
    len: usize,
}

impl<const N: usize> Model for Text<N> {
    ghost use Rattle.std.specs.Prelude.{ℕ, ◌≤◌, List, take};

    ghost Value = { List ℕ };

    ghost view = { λ t. take t.len t.bytes };

    ghost invariant = { λ t. t.len ≤ N };
}

impl<const N: usize> Text<N> {
    pub fn new() -> Self
        ensures { result ≡ [] }
    {
        Text {
            bytes: [0; N],
            len: 0,
        }
    }

    pub fn as_bytes(&self) -> &[u8]
        ensures { result.now ≡ self.now }
    {
        &self.bytes[..self.len]
    }

    // This and the three below are `put` and its like, behind the text that is there.
    #[tactic(auto, using(crate::specs::Putting::texts))]
    pub fn push(&mut self, part: &[u8])
        requires { length self.old + length part.now ≤ N }
        ensures { self.new ≡ self.old ++ part.now }
    {
        let bytes = &mut self.bytes[..];
        self.len = put(bytes, self.len, part);
    }

    #[tactic(auto, using(crate::specs::Putting::texts))]
    pub fn push_number(&mut self, x: u64)
        requires { length self.old + 20 ≤ N }
        ensures value { self.new ≡ self.old ++ decimal x }
        ensures len { length self.new ≤ length self.old + 20 }
    {
        let bytes = &mut self.bytes[..];
        self.len = put_number(bytes, self.len, x);
    }

    #[tactic(auto, using(crate::specs::Putting::texts))]
    pub fn push_figure(&mut self, word: &[u8], x: u64)
        requires { length self.old + length word.now + 20 ≤ N }
        ensures value { self.new ≡ self.old ++ word.now ++ decimal x }
        ensures len { length self.new ≤ length self.old + length word.now + 20 }
    {
        let bytes = &mut self.bytes[..];
        self.len = put_figure(bytes, self.len, word, x);
    }

    #[tactic(auto, using(crate::specs::Putting::texts))]
    pub fn push_spaced(&mut self, numbers: &[u32])
        requires { length self.old + 21 * length numbers.now ≤ N }
        ensures value { self.new ≡ self.old ++ spaced numbers.now }
        ensures len { length self.new ≤ length self.old + 21 * length numbers.now }
    {
        let bytes = &mut self.bytes[..];
        self.len = put_spaced(bytes, self.len, numbers);
    }
}
