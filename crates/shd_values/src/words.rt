//! The words of a command line.

ghost use Rattle.std.specs.Prelude.{◌≡◌, ◌++◌, Some, IfOk, fold};
ghost use Rattle.std.specs.Option.{option_to_list};
ghost use Rattle.std.specs.Str.{chars};
ghost use Rattle.shd_values.specs.Words.{words_of, begun, with_character, next_outside, next_quoted, next, start, finished};

use crate::texts::Texts;
use base_texts::Text;
use sim_base::NoMemory;
use std::alloc::{AllocError, Global};

/// Whether a place of a command line stands in quotes.
#[derive(Clone, Copy)]
pub(crate) enum Quote {
    /// Neither in quotes nor behind a backslash.
    Outside,
    /// Behind a backslash that stands outside of quotes.
    Escaped,
    /// In '..'.
    Single,
    /// In "..".
    Double,
}

/// The words of a command line that have ended before a place, the one that has begun there, and
/// whether the place stands in quotes.
#[derive(Drop)]
pub(crate) struct Splitting {
    pub words: Texts,
    pub word: Option<Text>,
    pub quote: Quote,
}

/// The word with one character more; a word that has not begun begins.
fn with_character(alloc: Global, word: Option<Text>, character: char) -> Result<Text, NoMemory>
    ensures { IfOk result (λ text. Some text ≡ with_character word character) }
{
    let mut text = begun(alloc, word).into_string();
    text.push(character)?;
    Ok(Text::from(text))
}

/// A quote begins a word too.
fn begun(alloc: Global, word: Option<Text>) -> Text
    ensures { Some result ≡ begun word }
{
    match word {
        Some(text) => text,
        None => Text::new(alloc),
    }
}

/// The words so far, and the one that has begun.
fn with_word(words: Texts, word: Option<Text>) -> Result<Texts, NoMemory>
    ensures { IfOk result (λ all. all ≡ words ++ option_to_list word) }
{
    let mut words = words;
    if let Some(text) = word {
        words.push(text)?;
    }
    Ok(words)
}

/// A character that stands for itself.
fn take_plain(
    alloc: Global,
    words: Texts,
    word: Option<Text>,
    quote: Quote,
    character: char,
) -> Result<Splitting, NoMemory>
    ensures { IfOk result (λ s. s ≡ record { words = words; word = with_character word character; quote = quote }) }
{
    Ok(Splitting {
        words,
        word: Some(with_character(alloc, word, character)?),
        quote,
    })
}

fn take_outside(alloc: Global, splitting: Splitting, character: char) -> Result<Splitting, NoMemory>
    ensures { IfOk result (λ s. s ≡ next_outside (record splitting { quote = Quote.Outside }) character) }
{
    let Splitting {
        words,
        word,
        quote: _,
    } = splitting;
    match character {
        ' ' => Ok(Splitting {
            words: with_word(words, word)?,
            word: None,
            quote: Quote::Outside,
        }),
        '\'' => Ok(Splitting {
            words,
            word: Some(begun(alloc, word)),
            quote: Quote::Single,
        }),
        '"' => Ok(Splitting {
            words,
            word: Some(begun(alloc, word)),
            quote: Quote::Double,
        }),
        '\\' => Ok(Splitting {
            words,
            word,
            quote: Quote::Escaped,
        }),
        _ => take_plain(alloc, words, word, Quote::Outside, character),
    }
}

/// A character in quotes, which end at this one.
fn take_quoted(
    alloc: Global,
    end: char,
    splitting: Splitting,
    character: char,
) -> Result<Splitting, NoMemory>
    ensures { IfOk result (λ s. s ≡ next_quoted end splitting character) }
{
    let Splitting { words, word, quote } = splitting;
    if character == end {
        return Ok(Splitting {
            words,
            word,
            quote: Quote::Outside,
        });
    }
    take_plain(alloc, words, word, quote, character)
}

/// A character more.
fn take(alloc: Global, splitting: Splitting, character: char) -> Result<Splitting, NoMemory>
    ensures { IfOk result (λ s. s ≡ next splitting character) }
{
    match splitting.quote {
        Quote::Outside => take_outside(alloc, splitting, character),
        Quote::Escaped => {
            let Splitting {
                words,
                word,
                quote: _,
            } = splitting;
            take_plain(alloc, words, word, Quote::Outside, character)
        }
        Quote::Single => take_quoted(alloc, '\'', splitting, character),
        Quote::Double => take_quoted(alloc, '"', splitting, character),
    }
}

fn finish(splitting: Splitting) -> Result<Option<Texts>, NoMemory>
    ensures { IfOk result (λ words. words ≡ finished splitting) }
{
    let Splitting { words, word, quote } = splitting;
    match quote {
        Quote::Outside => Ok(Some(with_word(words, word)?)),
        Quote::Escaped | Quote::Single | Quote::Double => Ok(None),
    }
}

/// Splits characters into words.
fn split(alloc: Global, characters: &[char]) -> Result<Splitting, NoMemory>
    ensures { IfOk result (λ s. s ≡ fold next start characters.now) }
{
    let mut splitting = Splitting {
        words: Texts::new(alloc),
        word: None,
        quote: Quote::Outside,
    };
    for character in characters {
        splitting = take(alloc, splitting, *character)?;
    }
    Ok(splitting)
}

fn characters(alloc: Global, text: &str) -> Result<Vec<char>, AllocError>
    ensures { IfOk result (λ v. v.items ≡ chars text.now) }
{
    text.chars().collect(alloc)
}

/// Reads the words of a command line: what stands between spaces, where '..', ".." and a backslash
/// keep what they hold. There are none where a quote isn't closed or a backslash stands last.
pub fn read_words(alloc: Global, text: &str) -> Result<Option<Texts>, NoMemory>
    ensures { IfOk result (λ words. words ≡ words_of text.now) }
{
    let characters = characters(alloc, text)?;
    finish(split(alloc, characters.as_slice())?)
}
