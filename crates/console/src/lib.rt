// What the programs share: bytes from standard input, the image that they are, and the line of a refusal.
#![tactic(auto)]

ghost use Rattle.std.specs.Prelude.{◌≡◌, ℕ, List, ◌+◌, ◌≤◌, ◌++◌, length, Ok};
ghost use Rattle.acceptance.specs.Accept.{image_check};
ghost use Rattle.image.specs.Bytes.{words_of};
ghost use Rattle.text.specs.Putting.{Spelt};
ghost use Rattle.console.specs.Console.{input_of, refused_line, printed as printed_of, Reported};
ghost use Rattle.console.specs.Requires.{Taken};

use reply::Refusal;
use std::io::{Read, Write};
use text::Text;

// Reads until the buffer is full, the input ends or a read fails, and says how many bytes are at its start.
fn read_full<R: Read>(input: &mut R, bytes: &mut [u8]) -> usize
    ensures { result ≤ length bytes.new }
{
    let mut done = 0;
    while done < bytes.len() {
        match input.read(&mut bytes[done..]) {
            Ok(n) if 0 < n => done += n,
            _ => break,
        }
    }
    done
}

// Reads the input to its end. More than `bytes` has room for counts as none: both are refused with 1.
pub fn read_bytes<R: Read>(input: &mut R, bytes: &mut [u8]) -> usize
    ensures { result ≤ length bytes.new }
{
    let n = read_full(input, bytes);
    let mut next = [0u8; 1];
    if 0 < read_full(input, &mut next) {
        return 0;
    }
    n
}

// Decodes the bytes into `words`, which have room for the largest image, and judges them.
#[tactic(auto, using(crate::specs::Exits::laws))]
pub fn judge(bytes: &[u8], words: &mut [u32]) -> Result<usize, Refusal>
    requires { length words.old ≡ 13315 }
    ensures { Taken bytes.now result words.new }
{
    if acceptance::questions::bytes_ok(bytes.len()) {
        let k = bytes.len() / 4;
        image::bytes::decode(bytes, words, k);
        acceptance::check(&words[..k])?;
        Ok(k)
    } else {
        Err(Refusal::BadSizes)
    }
}

// The line of a refusal, at the front of a lent buffer; says where it ends.
#[tactic(auto, using(crate::specs::Exits::laws))]
pub fn refused_line(out: &mut [u8], r: Refusal) -> usize
    requires { 64 ≤ length out.old }
    ensures { Spelt out.old (refused_line r) out.new result }
{
    let k = text::put_figure(out, 0, b"refused ", u64::from(u32::from(r)));
    text::put(out, k, b"\n")
}

// The same behind a text.
#[tactic(auto, using(crate::specs::Exits::laws))]
pub fn push_refusal<const N: usize>(out: &mut Text<N>, r: Refusal)
    requires { length out.old + 64 ≤ N }
    ensures { out.new ≡ out.old ++ refused_line r }
{
    out.push_figure(b"refused ", u64::from(u32::from(r)));
    out.push(b"\n");
}

// What a program prints, in a text that has room for N bytes.
pub trait Report<const N: usize> {
    // of the bytes that were read
    ghost printed: { List ℕ → List ℕ };

    // of an image, and how long that is at most
    ghost text: { List ℕ → List ℕ };

    ghost most: { ℕ };

    // Pushes the text of an image that recovery accepts.
    fn push(out: &mut Text<N>, img: &[u32])
        requires accepted { image_check img.now ≡ Ok tt }
        requires in_bounds { length out.old + most ≤ N }
        ensures { out.new ≡ out.old ++ text img.now };

    ghost prints: { (bytes : List ℕ) → printed bytes ≡ printed_of (input_of bytes) (text (words_of bytes)) };
}

// What is printed of the bytes that were read: the text of the image, or the refusal.
#[tactic(auto, using(crate::specs::Exits::laws))]
pub fn push_report<const N: usize, P: Report<N>>(out: &mut Text<N>, bytes: &[u8], words: &mut [u32])
    requires words_len { length words.old ≡ 13315 }
    requires refusal_in_bounds { length out.old + 64 ≤ N }
    requires in_bounds { length out.old + P.most ≤ N }
    ensures { out.new ≡ out.old ++ P.printed bytes.now }
{
    match judge(bytes, words) {
        Err(r) => push_refusal(out, r),
        Ok(k) => P::push(out, &words[..k]),
    }
}

// Reads the input to its end, and writes what the program prints of it. A write that fails makes no difference.
pub fn run<const N: usize, P: Report<N>, R: Read, W: Write>(
    input: &mut R,
    output: &mut W,
    out: &mut Text<N>,
)
    requires refusal_in_bounds { length out.old + 64 ≤ N }
    requires in_bounds { length out.old + P.most ≤ N }
    ensures { Reported P.printed out.old out.new }
{
    let mut bytes = [0u8; 53260];
    let mut words = [0u32; 13315];
    let n = read_bytes(input, &mut bytes);
    push_report::<N, P>(out, &bytes[..n], &mut words);
    let _ = output.write_all(out.as_bytes());
}
