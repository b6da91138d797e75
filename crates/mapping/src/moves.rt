// Words moved behind other Booleans.
ghost use Rattle.std.specs.Prelude.{◌≡◌, map};
ghost use Rattle.mapping.specs.Memory.{moved_word};

// A word that many Booleans further, or the nearest that there is; a 0 ends a clause and stays.
fn move_word(word: i32, by: u32) -> i32
    ensures { result ≡ moved_word by word }
{
    match word {
        0 => 0,
        1.. => word.saturating_add_unsigned(by),
        _ => word.saturating_sub_unsigned(by),
    }
}

// Moves each of these words behind that many Booleans.
pub fn move_words(words: &mut [i32], by: u32)
    ensures { words.new ≡ map (moved_word by) words.old }
{
    for word in words.iter_mut() {
        *word = move_word(*word, by);
    }
}
