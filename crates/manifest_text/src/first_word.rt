//! The words that a line may begin with.

ghost use Rattle.std.specs.Prelude.{◌≡◌, bytes_eq};
ghost use Rattle.manifest_text.specs.Lines.{keyword_of};

use crate::keyword::Keyword;

fn is(word: &[u8], keyword: &[u8]) -> bool
    ensures { result ≡ bytes_eq word.now keyword.now }
{
    word == keyword
}

#[tactic(auto, unfolding(crate::specs::Lines::keyword_of))]
pub fn keyword_of(word: &[u8]) -> Option<Keyword>
    ensures { result ≡ keyword_of word.now }
{
    if is(word, b"memory") {
        Some(Keyword::Memory)
    } else if is(word, b"elf") {
        Some(Keyword::Elf)
    } else if is(word, b"flat") {
        Some(Keyword::Flat)
    } else if is(word, b"file") {
        Some(Keyword::File)
    } else if is(word, b"dir") {
        Some(Keyword::Dir)
    } else if is(word, b"stdin") {
        Some(Keyword::Stdin)
    } else if is(word, b"root") {
        Some(Keyword::Root)
    } else if is(word, b"start") {
        Some(Keyword::Start)
    } else if is(word, b"quanta") {
        Some(Keyword::Quanta)
    } else if is(word, b"repeat") {
        Some(Keyword::Repeat)
    } else if is(word, b"dump") {
        Some(Keyword::Dump)
    } else if is(word, b"watch") {
        Some(Keyword::Watch)
    } else {
        None
    }
}
