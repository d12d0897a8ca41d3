// What the dispatch server asks of an image's bytes, which are read in place.
ghost use Rattle.std.specs.Prelude.{◌≡◌};
ghost use Rattle.acceptance.specs.Questions.{clock_of_bytes, survivors_of_bytes};

#[unsafe(no_mangle)]
pub extern "C" fn board_clock(bytes: &[u8]) -> u64
    ensures { result ≡ clock_of_bytes bytes.now }
{
    board::questions::board_clock(bytes)
}

#[unsafe(no_mangle)]
pub extern "C" fn board_survivors(bytes: &[u8]) -> u64
    ensures { result ≡ survivors_of_bytes bytes.now }
{
    board::questions::board_survivors(bytes)
}
