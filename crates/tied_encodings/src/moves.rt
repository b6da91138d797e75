// Words of few Booleans, moved behind others.
// kept: beside mapping's move_words, which stops a word at the last Boolean that there is; a word that can't reach it is added to, in half the time.
// kept: `as` from u32 to i32, which has no From; it is proved to lose nothing.
ghost use Rattle.std.specs.Prelude.{◌≡◌, ◌≤◌, true, map, nat_le};
ghost use Rattle.formula.specs.Boolean.{number};
ghost use Rattle.formula.specs.Tests.{every};
ghost use Rattle.mapping.specs.Memory.{moved_word};

// A word of few Booleans, so many further; a 0 ends a clause and stays.
fn move_word(word: i32, by: u32) -> i32
    requires { (number word ≤ 127) × (by ≤ 64) }
    ensures { result ≡ moved_word by word }
{
    match word {
        0 => 0,
        1.. => word + by as i32,
        _ => word - by as i32,
    }
}

// Moves each of these words behind so many Booleans.
pub(crate) fn move_few(words: &mut [i32], by: u32)
    requires { (every (λ w. nat_le (number w) 127) words.old ≡ true) × (by ≤ 64) }
    ensures { words.new ≡ map (moved_word by) words.old }
{
    for word in words.iter_mut() {
        *word = move_word(*word, by);
    }
}
