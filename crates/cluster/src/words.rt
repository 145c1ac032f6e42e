//! Tables of words, such as `KIND_WORDS`: a word is read as the first place that has it, and printed as the entry at a place.
ghost use Rattle.std.specs.Prelude.{◌≡◌, ◌<◌, [], length, map, slice_index_or};
ghost use Rattle.std.specs.List.{position};
ghost use Rattle.std.specs.Str.{bytes_eq};

/// The word at a place of the table.
pub fn word_at(words: &[&'static str], place: usize) -> &'static str
    requires { place < length words.now }
    ensures { result.now ≡ slice_index_or (map (λ w. w.now) words.now) place [] }
{
    words[place]
}

/// The first place of the table that has the word.
pub fn place_of_word(words: &[&'static str], word: &str) -> Option<usize>
    ensures { result ≡ position (bytes_eq word.now) (map (λ w. w.now) words.now) }
{
    first_place(words, word)
}

fn first_place(words: &[&'static str], word: &str) -> Option<usize>
    ensures { result ≡ position (λ w. bytes_eq word.now w.now) words.now }
{
    words.iter().position(|w| word == *w)
}
