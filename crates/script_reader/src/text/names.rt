//! The names of callers.

ghost use Rattle.std.specs.Prelude.{◌≡◌, ◌&&◌, false, nat_le, ◌∷◌, [], IfOk, IfErr, codes};
ghost use Rattle.std.specs.List.{list_all};
ghost use Rattle.script_reader.specs.Input.{IsName, is_name};
ghost use Rattle.script_reader.specs.Forms.{is_script_line};

use crate::fault::Fault;
use crate::limits::LONGEST_NAME;
use crate::text::words::Words;
use std::str;

// The name that a word is.
fn name_of(word: &[u8]) -> Result<&str, Fault>
    ensures found { IfOk result (λ name. (name.now ≡ word.now) × IsName word.now) }
    ensures none { IfErr result (λ why. (why ≡ Fault.Word) × (is_name word.now ≡ false)) }
{
    if !is_name(word) {
        return Err(Fault::Word);
    }
    let Ok(name) = str::from_utf8(word) else {
        return Err(Fault::Word);
    };
    Ok(name)
}

// Whether a word is a name.
fn is_name(word: &[u8]) -> bool
    ensures { result ≡ is_name word.now }
{
    !word.is_empty() && word.len() <= LONGEST_NAME && are_letters(word)
}

// Whether each byte is a small letter.
fn are_letters(word: &[u8]) -> bool
    ensures { result ≡ list_all (λ b. nat_le 97 b && nat_le b 122) word.now }
{
    word.iter().all(|b| b'a' <= *b && *b <= b'z')
}

// The caller's name of a line that begins a script.
pub(crate) fn caller_of<'a>(words: &Words<'a>) -> Result<&'a str, Fault>
    ensures found { IfOk result
        (λ name. (words.now ≡ codes "script" ∷ name.now ∷ []) × IsName name.now) }
    ensures none { IfErr result (λ why. (why ≡ Fault.Word) × (is_script_line words.now ≡ false)) }
{
    if !words.is_row(b"script", 2) {
        return Err(Fault::Word);
    }
    name_of(words.at(1))
}
