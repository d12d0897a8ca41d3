// What the dispatch server asks of an image's bytes, which are read in place.
ghost use Rattle.std.specs.Prelude.{◌≡◌};
ghost use Rattle.acceptance.specs.Questions.{clock_of_bytes, survivors_of_bytes};

use image::words::Words;

#[tactic(auto, using(acceptance::specs::InPlace::told))]
pub fn board_clock(bytes: &[u8]) -> u64
    ensures { result ≡ clock_of_bytes bytes.now }
{
    match acceptance::questions::count_jobs(bytes) {
        Err(r) => reply::declined(r),
        Ok(_) => bytes.word(2) as u64,
    }
}

#[tactic(auto, using(acceptance::specs::InPlace::told))]
pub fn board_survivors(bytes: &[u8]) -> u64
    ensures { result ≡ survivors_of_bytes bytes.now }
{
    match acceptance::questions::count_jobs(bytes) {
        Err(r) => reply::declined(r),
        Ok(k) => k as u64,
    }
}
