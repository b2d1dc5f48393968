// The input's bytes as the words of a strip.

ghost use Rattle.std.specs.Prelude.{◌/◌, ◌≤◌, length};
ghost use Rattle.plain.specs.Lotstrip.{word_bytes};
ghost use Rattle.lotstrip_text.specs.Input.{WordsRead};

use crate::rooms::WORD_BYTES;

// Writes the words of the input to the start of `words`.
pub fn read_words(bytes: &[u8], words: &mut [u32])
    requires { length bytes.now / word_bytes ≤ length words.old }
    ensures { WordsRead bytes.now words.old words.new }
{
    let (fours, _) = bytes.as_chunks::<WORD_BYTES>();
    for (i, four) in fours.iter().enumerate() {
        words[i] = u32::from_be_bytes(*four);
    }
}
