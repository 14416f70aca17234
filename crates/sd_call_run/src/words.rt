//! The words of a command line in memory.

ghost use Rattle.std.specs.Prelude.{◌≡◌, ◌<◌, ◌≢◌, ◌++◌, ◌∷◌, [], ℕ, length, map, slice_index, unwrap_or};
ghost use Rattle.std.specs.Prelude.{IfSome, MatchResult, None, OnOk, Some, false, true};
ghost use Rattle.std.specs.String.{string_bytes};
ghost use Rattle.sd_call_run.specs.Runs.{command_words};
ghost use Rattle.sd_call_run.specs.declared.words.WordsFault.TheVariants.{NoMemory, NoText};

use std::alloc::Global;

/// Why some bytes give no words.
#[derive(Clone, Copy)]
pub enum WordsFault {
    /// A word is no text in UTF-8, or has no NUL behind it.
    NoText,
    NoMemory,
}

/// The words that NULs end, behind the program's name. That they are texts is known before memory is asked for.
pub fn words_in(alloc: Global, bytes: &[u8]) -> Result<Vec<String>, WordsFault>
    ensures words { MatchResult result
        (λ words. command_words bytes.now ≡ Some (map string_bytes words.items))
        (λ fault. fault ≡ NoText → command_words bytes.now ≡ None) }
    ensures only_texts_need_memory { MatchResult result (λ _. Unit {0})
        (λ fault. fault ≡ NoMemory → command_words bytes.now ≢ None) }
{
    if are_texts(bytes) {
        push_words(alloc, bytes)
    } else {
        Err(WordsFault::NoText)
    }
}

// Whether each word is a text and has its NUL.
fn are_texts(bytes: &[u8]) -> bool
    ensures yes { result ≡ true → command_words bytes.now ≢ None }
    ensures no { result ≡ false → command_words bytes.now ≡ None }
{
    let mut rest = bytes;
    while !rest.is_empty() {
        let Some(end) = first_nul(rest) else {
            return false;
        };
        let Ok(_) = str::from_utf8(&rest[..end]) else {
            return false;
        };
        rest = &rest[end + 1..];
    }
    true
}

fn push_words(alloc: Global, bytes: &[u8]) -> Result<Vec<String>, WordsFault>
    ensures { MatchResult result
        (λ words. command_words bytes.now ≡ Some (map string_bytes words.items))
        (λ fault. fault ≡ NoText → command_words bytes.now ≡ None) }
{
    let mut words = Vec::new(alloc);
    push_word(alloc, &mut words, "sdtool")?;
    let mut rest = bytes;
    while !rest.is_empty() {
        let Some(end) = first_nul(rest) else {
            return Err(WordsFault::NoText);
        };
        let Ok(word) = str::from_utf8(&rest[..end]) else {
            return Err(WordsFault::NoText);
        };
        push_word(alloc, &mut words, word)?;
        rest = &rest[end + 1..];
    }
    Ok(words)
}

fn first_nul(bytes: &[u8]) -> Option<usize>
    ensures found { IfSome result (λ n. (n < length bytes.now) × (slice_index bytes.now n ≡ 0)) }
    ensures before { (k : ℕ) → k < unwrap_or result (length bytes.now) → slice_index bytes.now k ≢ 0 }
{
    bytes.iter().position(|b| *b == 0)
}

fn push_word(alloc: Global, words: &mut Vec<String>, word: &str) -> Result<(), WordsFault>
    ensures added { OnOk result (map string_bytes words.new.items ≡ map string_bytes words.old.items ++ word.now ∷ []) }
    ensures refused { MatchResult result (λ _. Unit {0}) (λ fault. fault ≡ NoMemory) }
{
    let word = String::from_str(alloc, word).map_err(|_| WordsFault::NoMemory)?;
    words.push(word).map_err(|_| WordsFault::NoMemory)
}
