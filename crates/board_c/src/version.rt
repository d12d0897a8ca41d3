// The version of the library, for a host that was compiled with the header of another.
ghost use Rattle.std.specs.Prelude.{◌≡◌};
ghost use Rattle.board.specs.Calls.{version};

#[unsafe(no_mangle)]
pub extern "C" fn board_version() -> u32
    ensures { result ≡ version }
{
    board::version::board_version()
}
