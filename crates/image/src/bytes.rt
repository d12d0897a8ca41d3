// An image as bytes, decoded whole.
ghost use Rattle.std.specs.Prelude.{◌≡◌};
ghost use Rattle.image.specs.Line.{stored};
ghost use Rattle.image.specs.Bytes.{words_of, Decodes};

use crate::words::Words;

// The `k` words that the bytes make.
#[tactic(auto, using(crate::specs::Exits::laws))]
pub fn decode(bytes: &[u8], words: &mut [u32], k: usize)
    requires { Decodes bytes.now words.old k }
    ensures { words.new ≡ stored words.old 0 (words_of bytes.now) k }
{
    for i in 0..k {
        words[i] = bytes.word(i);
    }
}
