//! The words in chains: one for each vocabulary, and strands, of which a search follows one.
//!
//! A header has the token of the next older word of its vocabulary, and a table that of each vocabulary's newest one.
//! Which strand a word is in, its vocabulary and its name say. There are as many strands as there may be words, so a
//! search reads few headers, the newest first, however many words there are, unless many of their names lead to one
//! strand. Contracts see a list of words, oldest first.
ghost use Rattle.std.specs.Prelude.{◌≡◌, ◌+◌, ◌-◌, ◌/◌, ◌<◌, ◌≤◌, ◌==◌, ◌&&◌, [], ◌∷◌, ◌++◌, length, take, option_map, is_some, IfOk, IfSome, IsTrue};
ghost use Rattle.std.specs.Bool.{OnTrue, OnFalse};
ghost use Rattle.std.specs.Int.{from_le_bytes, Width};
ghost use Rattle.std.specs.Int.Width.{w32};
ghost use Rattle.dictionary.specs.Words.{same_text, is_name, find_in, entry, with_immediate, with_part};
ghost use Rattle.dictionary.specs.Dictionary.{word_of, kind_of, kind_of_word};
ghost use Rattle.dictionary.specs.Callees.{callee_of};
ghost use Rattle.dictionary.specs.Chains.{joined, mixed, number_of};

use crate::callees::{Callees, callee_in};
use crate::{Callee, Kind, NAME_LIMIT, NoMemory, Place, Token, WORD_LIMIT, Word};
use std::alloc::Global;
use std::marker::Model;

/// How many strands there are.
const STRANDS: usize = 4096;

/// The number after the piece has joined it, in 32 bits. The multiplier (2 to the 32nd over the golden ratio) spreads
/// what is alike.
#[inline]
fn joined(mix: u32, piece: u32) -> u32
    ensures { result ≡ joined mix piece }
{
    mix.wrapping_add(piece).wrapping_mul(2_654_435_769)
}

/// The last bytes of a name, fewer than four, as one piece.
#[inline]
fn last_piece(bytes: &[u8]) -> u32
    requires { length bytes.now < 4 }
    ensures { result ≡ from_le_bytes w32 bytes.now }
{
    match bytes {
        [a, b, c] => u32::from_le_bytes([*a, *b, *c, 0]),
        [a, b] => u32::from_le_bytes([*a, *b, 0, 0]),
        [a] => u32::from(*a),
        _ => 0,
    }
}

/// The name as one number, four bytes at a time.
#[inline]
pub(crate) fn mixed(name: &[u8]) -> u32
    ensures { result ≡ mixed name.now }
{
    let mut mix = 0;
    let mut rest = name;
    while let [a, b, c, d, after @ ..] = rest {
        mix = joined(mix, u32::from_le_bytes([*a, *b, *c, *d]));
        rest = after;
    }
    joined(mix, last_piece(rest))
}

/// The number of the words in the vocabulary whose name is mixed to `mix`.
#[inline]
fn number(vocabulary: Token, mix: u32) -> u32
    ensures { result ≡ joined mix vocabulary }
{
    joined(mix, u32::from(vocabulary))
}

/// The strand of the words of this number: its high bits.
#[inline]
fn strand(number: u32) -> usize
    ensures strand { result ≡ number / 1048576 }
    ensures below { result < 4096 }
{
    (number / 1_048_576) as usize
}

/// What is kept of a word. What a search reads of each word comes first.
#[derive(Clone, Copy)]
pub(crate) struct Header {
    // Vocabulary and name as a number. Words of another number have another name or vocabulary: a search looks at it alone.
    number: u32,
    // The word before this one in the same strand, or 0.
    older: Token,
    vocabulary: Token,
    len: u8,
    name: [u8; NAME_LIMIT],
    immediate: bool,
    // The word before this one in the same vocabulary, or 0.
    previous: Token,
    here: u16,
    kind: Kind,
}

impl Header {
    #[inline]
    fn is_of(&self, number: u32, vocabulary: Token, name: &[u8]) -> bool
        requires len { self.now.len ≤ 31 }
        requires own { self.now.number ≡ number_of self.now.vocabulary (take self.now.len self.now.name) }
        requires number { number ≡ number_of vocabulary name.now }
        ensures { result ≡ ((self.now.vocabulary == vocabulary) && same_text (take self.now.len self.now.name) name.now) }
    {
        self.number == number
            && self.vocabulary == vocabulary
            && &self.name[..self.len as usize] == name
    }
}

/// The words, oldest first.
#[derive(Drop)]
pub(crate) struct Chains {
    headers: Vec<Header>,
    // By a vocabulary's token: its last word, or 0.
    last: Vec<Token>,
    // By the strand: its last word, or 0.
    newest: Vec<Token>,
    // What a call of each word comes to.
    callees: Callees,
}

impl Model for Chains {
    ghost use Rattle.std.specs.Prelude.{List, map, ◌≤◌, vec_capacity};
    ghost use Rattle.dictionary.specs.Dictionary.{Named};
    ghost use Rattle.dictionary.specs.Callees.{IsToldOf};
    ghost use Rattle.dictionary.specs.Chains.{header_word, IsChained};

    ghost Value = { List Named };

    ghost view = { λ c. map header_word c.headers.items };

    ghost invariant = { λ c. IsChained c.headers.items c.last.items c.newest.items × (4096 ≤ vec_capacity c.headers) × IsToldOf c.headers.items c.callees };
}

impl Chains {
    /// No words, and all the memory that they will ever need.
    pub(crate) fn new(alloc: Global) -> Result<Chains, NoMemory>
        ensures { IfOk result (λ words. words ≡ []) }
    {
        let headers = Vec::with_capacity(alloc, WORD_LIMIT)?;
        let last = vec![in alloc; 0; WORD_LIMIT + 1]?;
        let newest = vec![in alloc; 0; STRANDS]?;
        let callees = Callees::new(alloc)?;
        Ok(Chains {
            headers,
            last,
            newest,
            callees,
        })
    }

    /// How many words there are.
    pub(crate) fn len(&self) -> usize
        ensures len { result ≡ length self.now }
        ensures room { result ≤ 4096 }
    {
        self.headers.len()
    }

    /// Adds a word to the end of its vocabulary's chain, and of its strand.
    pub(crate) fn push(&mut self, word: Word<'_>)
        requires room { length self.old < 4096 }
        requires name { IsTrue (is_name word.name.now) }
        requires vocabulary { word.vocabulary ≤ 4096 }
        ensures { self.new ≡ self.old ++ word_of word.entry ∷ [] }
    {
        let len = word.name.len();
        let mut name = [0; NAME_LIMIT];
        name[..len].copy_from_slice(word.name);
        let number = number(word.vocabulary, mixed(word.name));
        let strand = strand(number);
        let header = Header {
            number,
            older: self.newest[strand],
            vocabulary: word.vocabulary,
            len: len as u8,
            name,
            immediate: word.immediate,
            previous: self.last[word.vocabulary as usize],
            here: word.here,
            kind: word.kind,
        };
        let token = self.headers.len() + 1;
        if self.headers.push(header).is_ok() {
            self.last[word.vocabulary as usize] = token as Token;
            self.newest[strand] = token as Token;
            self.callees.set(token as Token, callee_in(word.kind));
        }
    }

    /// Takes the last word off, and sets the ends of its vocabulary and of its strand back.
    pub(crate) fn pop(&mut self)
        requires { 0 < length self.old }
        ensures { self.new ≡ take (length self.old - 1) self.old }
    {
        if let Some(header) = self.headers.pop() {
            self.last[header.vocabulary as usize] = header.previous;
            self.newest[strand(header.number)] = header.older;
            let token = self.headers.len() + 1;
            self.callees.set(token as Token, Callee::Other);
        }
    }

    /// Keeps the first words, as many as this.
    pub(crate) fn truncate(&mut self, len: usize)
        requires { len ≤ length self.old }
        ensures { self.new ≡ take len self.old }
    {
        while self.len() > len {
            self.pop();
        }
    }

    /// The token of the last word of the name in the vocabulary. `mix` is the name, mixed: who looks in two
    /// vocabularies mixes it once.
    #[inline(always)]
    pub(crate) fn find_in(&self, vocabulary: Token, name: &[u8], mix: u32) -> Option<Token>
        requires mixed { mix ≡ mixed name.now }
        ensures found { result ≡ find_in self.now vocabulary name.now }
        ensures token { IfSome result (λ token. (0 < token)) }
        ensures within { IfSome result (λ token. token ≤ length self.now) }
    {
        let number = number(vocabulary, mix);
        let mut token = self.newest[strand(number)];
        while token != 0 {
            let header = &self.headers[token as usize - 1];
            if header.is_of(number, vocabulary, name) {
                return Some(token);
            }
            token = header.older;
        }
        None
    }

    /// The word with the token.
    #[inline]
    pub(crate) fn get(&self, token: Token) -> Option<Word<'_>>
        ensures { option_map word_of result ≡ entry self.now token }
    {
        if token == 0 || token as usize > self.headers.len() {
            return None;
        }
        let header = &self.headers[token as usize - 1];
        Some(Word {
            name: &header.name[..header.len as usize],
            vocabulary: header.vocabulary,
            immediate: header.immediate,
            here: header.here,
            kind: header.kind,
        })
    }

    /// What the word is.
    #[inline(always)]
    pub(crate) fn kind(&self, token: Token) -> Option<Kind>
        ensures { option_map kind_of result ≡ kind_of_word (entry self.now token) }
    {
        match self.headers.get(usize::from(token.wrapping_sub(1))) {
            Some(header) => Some(header.kind),
            None => None,
        }
    }

    /// What a call of the word comes to.
    #[inline(always)]
    pub(crate) fn callee(&self, token: Token) -> Callee
        requires { token ≤ 4096 }
        ensures { result ≡ callee_of (entry self.now token) }
    {
        self.callees.says(token)
    }

    /// What a call of the word comes to, for any number.
    #[inline(always)]
    pub(crate) fn callee_of_any(&self, token: Token) -> Callee
        ensures { result ≡ callee_of (entry self.now token) }
    {
        self.callees.says_of_any(token)
    }

    /// Makes the last word immediate.
    pub(crate) fn set_immediate(&mut self)
        requires { 0 < length self.old }
        ensures set { self.new ≡ with_immediate self.old }
        ensures len { length self.new ≡ length self.old }
    {
        let last = self.headers.len() - 1;
        self.headers[last].immediate = true;
    }

    /// Gives the last word a part. False, and nothing changes, where it has no data field that a part could belong to.
    pub(crate) fn set_part(&mut self, part: Place) -> bool
        requires { 0 < length self.old }
        ensures created { result ≡ is_some (with_part self.old part) }
        ensures set { OnTrue result (with_part self.old part ≡ Some self.new) }
        ensures kept { OnFalse result (self.new ≡ self.old) }
        ensures len { length self.new ≡ length self.old }
    {
        let last = self.headers.len() - 1;
        match self.headers[last].kind {
            Kind::Created(data, _) => {
                let header = &mut self.headers[last];
                header.kind = Kind::Created(data, Some(part));
                self.callees.set((last + 1) as Token, Callee::Other);
                true
            }
            _ => false,
        }
    }
}
