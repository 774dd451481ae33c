//! A tokenizer of Rust text.
use crate::item::{Unread, Why};
use std::alloc::{AllocError, Global};
use std::mem;

/// A token, and the number of its line, from 1 on.
#[derive(Debug, Drop)]
pub struct Token {
    pub line: usize,
    pub kind: Kind,
}

/// The kind of a token. Comments and spaces are not tokens.
#[derive(Debug, Drop)]
pub enum Kind {
    /// A name, a keyword, or a number.
    Word(String),
    /// Any other character.
    Mark(char),
    Lifetime,
    /// A string as written, without its quotes; or a character, whose text is left out.
    Literal(String),
}

/// Returns the tokens of a text, in order. A line comment that begins with `#[columnar(` has the tokens of its text.
///
/// # Errors
/// Out of memory, or the line on which a string or block comment without an end begins.
pub fn tokens_of(alloc: Global, text: &str) -> Result<Vec<Token>, Unread> {
    let mut tokenizer = Tokenizer::new(alloc);
    for c in text.chars() {
        tokenizer.step(c)?;
    }
    tokenizer.ended()
}

// The position of the tokenizer in the text.
#[derive(Clone, Copy)]
enum State {
    Between,
    InWord,
    Slash,
    LineComment,
    // A line comment that may be an attribute, with the number of characters that agree so far.
    Marked(usize),
    // With the depth of nested comments.
    BlockComment(usize),
    BlockSlash(usize),
    BlockStar(usize),
    Text,
    TextEscape,
    Quote,
    QuoteOne(char),
    QuoteEscape,
    QuoteEnd,
    LifetimeName,
    // With the number of `#`.
    RawBegin(usize),
    RawText(usize),
    RawEnd(usize, usize),
}

#[derive(Drop)]
struct Tokenizer {
    alloc: Global,
    tokens: Vec<Token>,
    word: String,
    line: usize,
    begun: usize,
    state: State,
}

// The beginning of a line comment that is read.
const MARK: &str = "#[columnar(";

fn is_word(c: char) -> bool {
    c.is_alphanumeric() || c == '_'
}

impl Tokenizer {
    fn new(alloc: Global) -> Tokenizer {
        Tokenizer {
            alloc,
            tokens: Vec::new(alloc),
            word: String::new(alloc),
            line: 1,
            begun: 1,
            state: State::Between,
        }
    }

    fn add(&mut self, kind: Kind) -> Result<(), AllocError> {
        let line = self.line;
        match self.tokens.push(Token { line, kind }) {
            Ok(()) => Ok(()),
            Err(error) => Err(AllocError::from(error)),
        }
    }

    fn end_word(&mut self) -> Result<(), AllocError> {
        let word = mem::replace(&mut self.word, String::new(self.alloc));
        self.state = State::Between;
        self.add(Kind::Word(word))
    }

    fn end_literal(&mut self) -> Result<(), AllocError> {
        let text = mem::replace(&mut self.word, String::new(self.alloc));
        self.state = State::Between;
        self.add(Kind::Literal(text))
    }

    // Begins a comment, a string or a quote.
    fn begin(&mut self, state: State) {
        self.begun = self.line;
        self.word = String::new(self.alloc);
        self.state = state;
    }

    fn step(&mut self, c: char) -> Result<(), AllocError> {
        self.turn(c)?;
        if c == '\n' {
            self.line = self.line.saturating_add(1);
        }
        Ok(())
    }

    fn turn(&mut self, c: char) -> Result<(), AllocError> {
        match self.state {
            State::Between => self.between(c)?,
            State::InWord => self.in_word(c)?,
            State::Slash => self.after_slash(c)?,
            State::LineComment => {
                if c == '\n' {
                    self.state = State::Between;
                }
            }
            State::Marked(seen) => self.in_mark(c, seen)?,
            State::BlockComment(depth) | State::BlockSlash(depth) | State::BlockStar(depth) => {
                self.in_block(c, depth);
            }
            State::Text => self.in_text(c)?,
            State::TextEscape => {
                self.word.push('\\')?;
                self.word.push(c)?;
                self.state = State::Text;
            }
            State::Quote | State::QuoteOne(_) | State::QuoteEscape | State::QuoteEnd => {
                self.in_quote(c)?;
            }
            State::LifetimeName => {
                if !is_word(c) {
                    self.state = State::Between;
                    self.between(c)?;
                }
            }
            State::RawBegin(hashes) => self.raw_begins(c, hashes)?,
            State::RawText(hashes) => self.in_raw(c, hashes, None)?,
            State::RawEnd(hashes, seen) => self.in_raw(c, hashes, Some(seen))?,
        }
        Ok(())
    }

    fn between(&mut self, c: char) -> Result<(), AllocError> {
        match c {
            '/' => self.begin(State::Slash),
            '"' => self.begin(State::Text),
            '\'' => self.begin(State::Quote),
            _ if is_word(c) => {
                self.word.push(c)?;
                self.state = State::InWord;
            }
            _ if c.is_whitespace() => {}
            _ => self.add(Kind::Mark(c))?,
        }
        Ok(())
    }

    // A quote after a word belongs to it, as in the names of clauses, unless the word is the prefix of a literal.
    fn in_word(&mut self, c: char) -> Result<(), AllocError> {
        let word = self.word.as_str();
        let is_raw = word == "r" || word == "br" || word == "cr";
        let is_prefix = word == "b" || word == "c";
        match c {
            '\'' if is_prefix => self.begin(State::Quote),
            '"' if is_prefix => self.begin(State::Text),
            '"' if is_raw => self.begin(State::RawText(0)),
            '#' if is_raw => {
                self.begun = self.line;
                self.state = State::RawBegin(1);
            }
            _ if is_word(c) || c == '\'' => self.word.push(c)?,
            _ => {
                self.end_word()?;
                self.between(c)?;
            }
        }
        Ok(())
    }

    fn after_slash(&mut self, c: char) -> Result<(), AllocError> {
        match c {
            '/' => self.state = State::Marked(0),
            '*' => self.state = State::BlockComment(1),
            _ => {
                self.state = State::Between;
                self.add(Kind::Mark('/'))?;
                self.between(c)?;
            }
        }
        Ok(())
    }

    // In a line comment that agrees with the first `seen` characters of the mark. After the whole mark its tokens follow.
    fn in_mark(&mut self, c: char, seen: usize) -> Result<(), AllocError> {
        if seen == 0 && c == ' ' {
            return Ok(());
        }
        if MARK.chars().nth(seen) != Some(c) {
            self.state = if c == '\n' {
                State::Between
            } else {
                State::LineComment
            };
            return Ok(());
        }
        if seen.saturating_add(1) < MARK.chars().count() {
            self.state = State::Marked(seen.saturating_add(1));
            return Ok(());
        }
        self.state = State::Between;
        self.add(Kind::Mark('#'))?;
        self.add(Kind::Mark('['))?;
        self.add(Kind::Word(String::from_str(self.alloc, "columnar")?))?;
        self.add(Kind::Mark('('))
    }

    fn in_block(&mut self, c: char, depth: usize) {
        self.state = match (self.state, c) {
            (State::BlockSlash(_), '*') => State::BlockComment(depth.saturating_add(1)),
            (State::BlockStar(_), '/') if depth <= 1 => State::Between,
            (State::BlockStar(_), '/') => State::BlockComment(depth.saturating_sub(1)),
            (_, '/') => State::BlockSlash(depth),
            (_, '*') => State::BlockStar(depth),
            _ => State::BlockComment(depth),
        };
    }

    fn in_text(&mut self, c: char) -> Result<(), AllocError> {
        match c {
            '"' => self.end_literal()?,
            '\\' => self.state = State::TextEscape,
            _ => self.word.push(c)?,
        }
        Ok(())
    }

    // A quote begins a character, or a lifetime if no second quote follows after one character.
    fn in_quote(&mut self, c: char) -> Result<(), AllocError> {
        match (self.state, c) {
            (State::Quote, '\\') => self.state = State::QuoteEscape,
            (State::Quote, _) => self.state = State::QuoteOne(c),
            (State::QuoteEscape, _) => self.state = State::QuoteEnd,
            (_, '\'') => self.end_literal()?,
            (State::QuoteOne(first), _) if is_word(first) => {
                self.state = State::LifetimeName;
                self.add(Kind::Lifetime)?;
                self.turn_after_name(c)?;
            }
            (State::QuoteOne(_), _) => {
                self.state = State::Between;
                self.add(Kind::Mark('\''))?;
                self.between(c)?;
            }
            _ => {}
        }
        Ok(())
    }

    fn turn_after_name(&mut self, c: char) -> Result<(), AllocError> {
        if !is_word(c) {
            self.state = State::Between;
            self.between(c)?;
        }
        Ok(())
    }

    // After a word and a `#`: a raw string, or a name such as r#type.
    fn raw_begins(&mut self, c: char, hashes: usize) -> Result<(), AllocError> {
        match c {
            '#' => self.state = State::RawBegin(hashes.saturating_add(1)),
            '"' => self.begin(State::RawText(hashes)),
            _ => {
                self.end_word()?;
                self.add(Kind::Mark('#'))?;
                self.between(c)?;
            }
        }
        Ok(())
    }

    fn in_raw(&mut self, c: char, hashes: usize, seen: Option<usize>) -> Result<(), AllocError> {
        match (c, seen) {
            ('"', _) if hashes == 0 => self.end_literal()?,
            ('"', None) => self.state = State::RawEnd(hashes, 0),
            ('"', Some(_)) => {
                self.word.push('"')?;
                self.state = State::RawEnd(hashes, 0);
            }
            ('#', Some(seen)) if seen.saturating_add(1) >= hashes => self.end_literal()?,
            ('#', Some(seen)) => self.state = State::RawEnd(hashes, seen.saturating_add(1)),
            _ => {
                if seen.is_some() {
                    self.word.push('"')?;
                }
                self.word.push(c)?;
                self.state = State::RawText(hashes);
            }
        }
        Ok(())
    }

    // Returns the tokens at the end of the text.
    fn ended(self) -> Result<Vec<Token>, Unread> {
        let mut tokenizer = self;
        match tokenizer.state {
            State::InWord | State::RawBegin(_) => tokenizer.end_word()?,
            State::Slash => tokenizer.add(Kind::Mark('/'))?,
            State::Between | State::LineComment | State::Marked(_) | State::LifetimeName => {}
            _ => return Err(Unread::Refused(tokenizer.begun, Why::Unended)),
        }
        let Tokenizer { tokens, .. } = tokenizer;
        Ok(tokens)
    }
}
