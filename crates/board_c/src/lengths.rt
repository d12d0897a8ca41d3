// The lengths to allocate, in words; 0 where a size is out of range.
ghost use Rattle.std.specs.Prelude.{◌≡◌};
ghost use Rattle.board.specs.Calls.{image_length, transient_length};

#[unsafe(no_mangle)]
pub extern "C" fn board_image_words(slots: u32, words: u32) -> usize
    ensures { result ≡ image_length slots words }
{
    board::lengths::board_image_words(slots, words)
}

#[unsafe(no_mangle)]
pub extern "C" fn board_transient_words(slots: u32, threads: u32) -> usize
    ensures { result ≡ transient_length slots threads }
{
    board::lengths::board_transient_words(slots, threads)
}
