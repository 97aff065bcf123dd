ghost use Rattle.std.specs.Prelude.{◌≡◌, ◌&&◌, map};
ghost use Rattle.std.specs.List.{list_any};
ghost use Rattle.std.specs.String.{string_bytes};
ghost use Rattle.command_words.specs.Look.{has_name};
ghost use Rattle.command_words.specs.Words.{is_distinct, is_option_word, name_of, names_of};

use crate::kind::is_option_word;

fn name_of(word: &str) -> &str
    ensures { result.now ≡ name_of word.now }
{
    match word.split_once('=') {
        None => word,
        Some((name, _)) => name,
    }
}

fn has_name(word: &str, name: &str) -> bool
    ensures { result ≡ has_name name.now word.now }
{
    is_option_word(word) && name == name_of(word)
}

fn any_has_name(words: &[String], name: &str) -> bool
    ensures { result ≡ list_any (λ s. has_name name.now (string_bytes s)) words.now }
{
    words.iter().any(|word| has_name(word.as_str(), name))
}

// Whether the word is an option word whose name stands again later.
fn repeats(word: &str, later: &[String]) -> bool
    ensures { result ≡ (is_option_word word.now && list_any (has_name (name_of word.now))
        (map string_bytes later.now)) }
{
    is_option_word(word) && any_has_name(later, name_of(word))
}

/// Whether no option word has the name of another.
pub fn has_distinct_names(words: &[String]) -> bool
    ensures { result ≡ is_distinct (names_of (map string_bytes words.now)) }
{
    for (i, word) in words.iter().enumerate() {
        let later = &words[i + 1..];
        if repeats(word.as_str(), later) {
            return false;
        }
    }
    true
}
