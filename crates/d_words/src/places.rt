//! Words by their places.

ghost use Rattle.std.specs.Prelude.{◌≡◌, ◌↔◌, ◌<◌, length, map, slice_index_or, [], IsTrue, string_bytes};

/// Whether this word stands at that place.
pub(crate) fn is_at(words: &[String], place: usize, word: &str) -> bool
    requires { place < length words.now }
    ensures { IsTrue result ↔ (slice_index_or (map string_bytes words.now) place [] ≡ word.now) }
{
    word_at(words, place) == word
}

/// The word at a place.
pub(crate) fn word_at(words: &[String], place: usize) -> &str
    requires { place < length words.now }
    ensures { result.now ≡ slice_index_or (map string_bytes words.now) place [] }
{
    words[place].as_str()
}
