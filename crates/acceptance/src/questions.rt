// What an image answers by itself, read in place from its bytes: how many jobs survive in it, or why it is refused.
#![tactic(auto, using(crate::specs::InPlace::answers))]

ghost use Rattle.std.specs.Prelude.{◌≡◌};
ghost use Rattle.image.specs.Layout.{jobs_board};
ghost use Rattle.image.specs.Bytes.{words_of};
ghost use Rattle.survival.specs.Survivors.{survives_on};
ghost use Rattle.survival.specs.Requires.{FlagAt, Marked};
ghost use Rattle.acceptance.specs.Questions.{job_count, bytes_ok};
ghost use Rattle.acceptance.specs.InPlace.{jobs_of, jobs_of_bytes};

use image::header::Header;
use image::words::Words;
use reply::Refusal;

// Is this the byte count of whole words, no more than the largest image has?
pub fn bytes_ok(len: usize) -> bool
    ensures { result ≡ bytes_ok len }
{
    if len % 4 != 0 {
        return false;
    }
    len <= 53260
}

// Is it a survivor of the board of jobs?
fn job_at(bytes: &[u8], flags: &[bool; 1024], n: usize, s: usize) -> bool
    requires { FlagAt (words_of bytes.now) n s flags.now }
    ensures { result ≡ survives_on (words_of bytes.now) n jobs_board s }
{
    if flags[s] {
        return image::words::board(bytes, n, s) == Header::JOBS;
    }
    false
}

fn job_count(bytes: &[u8], flags: &[bool; 1024], n: usize) -> usize
    requires { Marked (words_of bytes.now) n flags.now }
    ensures { result ≡ job_count (words_of bytes.now) n }
{
    let mut k = 0;
    for s in 0..n {
        if job_at(bytes, flags, n, s) {
            k += 1;
        }
    }
    k
}

// Of the words that the bytes make. The flags are made where the slots are asked: refusals 1 and 2 have no need of them.
#[tactic(auto, using(crate::specs::InPlace::answers, crate::specs::Exits::whole))]
fn count_words(bytes: &[u8]) -> Result<usize, Refusal>
    ensures { result ≡ jobs_of (words_of bytes.now) }
{
    crate::checks::head(bytes)?;
    let n = bytes.word(0) as usize;
    let w = bytes.word(1) as usize;
    let mut flags = [false; 1024];
    crate::checks::slots(bytes, &mut flags, n, w)?;
    Ok(job_count(bytes, &flags, n))
}

// Of any bytes.
pub fn count_jobs(bytes: &[u8]) -> Result<usize, Refusal>
    ensures { result ≡ jobs_of_bytes bytes.now }
{
    if bytes_ok(bytes.len()) {
        return count_words(bytes);
    }
    Err(Refusal::BadSizes)
}
