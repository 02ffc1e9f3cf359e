//! Tokens: keys, numbers, texts and brackets.

ghost use Rattle.std.specs.Prelude.{◌≡◌};
ghost use Rattle.std.specs.List.{list_all};
ghost use Rattle.std.specs.Str.{bytes_eq};
ghost use Rattle.gml_graph.specs.Token.{is_key_byte, is_key, key_named, word_token, quoted};

use crate::number::{Decimal, read_decimal};
use base_texts::{read_rate, read_time};
use sim_base::Time;

/// The keys that mean something, somewhere.
#[derive(Clone, Copy)]
pub enum Key {
    Graph,
    Directed,
    Node,
    Edge,
    Id,
    HostBandwidthUp,
    HostBandwidthDown,
    Label,
    Source,
    Target,
    Latency,
    PacketLoss,
    Jitter,
    Other,
}

/// What a text between quotes says: the time and the rate that it spells, where it spells one.
#[derive(Clone, Copy)]
pub struct Quoted {
    pub time: Option<Time>,
    pub rate: Option<u64>,
}

/// A token of a text.
#[derive(Clone, Copy)]
pub enum Token {
    Name(Key),
    Number(Decimal),
    Text(Quoted),
    /// `[`
    Open,
    /// `]`
    Close,
    /// A text whose second quote is missing.
    Unclosed,
    /// A word that is neither a key nor a number.
    Odd,
}

/// A token and the line on which it begins, from 1.
#[derive(Clone, Copy)]
pub struct Lexeme {
    pub line: u64,
    pub token: Token,
}

fn has_key_bytes(word: &[u8]) -> bool
    ensures { result ≡ list_all is_key_byte word.now }
{
    word.iter().all(|b| b.is_ascii_alphanumeric() || *b == b'_')
}

/// A letter, and then letters, digits and `_`.
fn is_key_word(word: &[u8]) -> bool
    ensures { result ≡ is_key word.now }
{
    match word {
        [first, ..] => first.is_ascii_alphabetic() && has_key_bytes(word),
        [] => false,
    }
}

/// Whether a word is this name.
fn is_word(word: &[u8], name: &str) -> bool
    ensures { result ≡ bytes_eq word.now name.now }
{
    word == name.as_bytes()
}

#[tactic(auto, unfolding(crate::specs::Token::key_named))]
fn key_of(word: &[u8]) -> Key
    ensures { result ≡ key_named word.now }
{
    if is_word(word, "graph") {
        return Key::Graph;
    }
    if is_word(word, "directed") {
        return Key::Directed;
    }
    if is_word(word, "node") {
        return Key::Node;
    }
    if is_word(word, "edge") {
        return Key::Edge;
    }
    if is_word(word, "id") {
        return Key::Id;
    }
    if is_word(word, "host_bandwidth_up") {
        return Key::HostBandwidthUp;
    }
    if is_word(word, "host_bandwidth_down") {
        return Key::HostBandwidthDown;
    }
    if is_word(word, "label") {
        return Key::Label;
    }
    if is_word(word, "source") {
        return Key::Source;
    }
    if is_word(word, "target") {
        return Key::Target;
    }
    if is_word(word, "latency") {
        return Key::Latency;
    }
    if is_word(word, "packet_loss") {
        return Key::PacketLoss;
    }
    if is_word(word, "jitter") {
        return Key::Jitter;
    }
    Key::Other
}

/// The token that a word is.
#[tactic(auto, unfolding(crate::specs::Token::word_token))]
pub fn token_of(word: &[u8]) -> Token
    ensures { result ≡ word_token word.now }
{
    if is_key_word(word) {
        return Token::Name(key_of(word));
    }
    match read_decimal(word) {
        Some(number) => Token::Number(number),
        None => Token::Odd,
    }
}

/// What a text between quotes says.
#[tactic(auto, unfolding(crate::specs::Token::quoted))]
pub fn read_quoted(text: &str) -> Quoted
    ensures { result ≡ quoted text.now }
{
    Quoted {
        time: read_time(text),
        rate: read_rate(text),
    }
}
