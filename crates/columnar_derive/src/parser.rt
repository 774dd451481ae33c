//! A reader that finds a struct or enum by its name in the tokens of a file.
use crate::attributes::{Attributes, may_derive, needs};
use crate::generics::{Generics, Parameter};
use crate::item::{Body, Description, Field, Owner, Unread, Value, Variant, Why};
use crate::names::method_name;
use crate::tokens::{Kind, Token, tokens_of};
use std::alloc::{AllocError, Global};

const MOST_FIELDS: usize = 10;

const MOST_VARIANTS: usize = 256;

/// Returns the struct or enum of this name that is outside of all braces.
///
/// # Errors
/// Out of memory, or the line that is refused, and the reason.
pub fn described(alloc: Global, tokens: &[Token], name: &str) -> Result<Description, Unread> {
    let mut depth = 0usize;
    // Where the attributes of the next item begin
    let mut begun: Option<usize> = None;
    for (at, token) in tokens.iter().enumerate() {
        match &token.kind {
            Kind::Mark('{' | '(' | '[') => depth = depth.saturating_add(1),
            Kind::Mark('}' | ')' | ']') => depth = depth.saturating_sub(1),
            Kind::Mark('#') if depth == 0 => begun = begun.or(Some(at)),
            Kind::Word(word) if depth == 0 => {
                if is_named(tokens, at, name) {
                    let mut reader = Reader {
                        alloc,
                        tokens,
                        at: begun.unwrap_or(at),
                    };
                    return reader.description(word.as_str(), at, name);
                }
                if word.as_str() != "pub" {
                    begun = None;
                }
            }
            _ => {}
        }
    }
    let last = tokens.last().map_or(1, |token| token.line);
    Err(Unread::Refused(last, Why::NotFound))
}

// Returns whether a word that begins a type is here, followed by the name.
fn is_named(tokens: &[Token], at: usize, name: &str) -> bool {
    let begins = match tokens.get(at) {
        Some(token) => match &token.kind {
            Kind::Word(word) => begins_type(word.as_str()),
            _ => false,
        },
        None => false,
    };
    let named = match tokens.get(at.saturating_add(1)) {
        Some(token) => match &token.kind {
            Kind::Word(word) => word.as_str() == name,
            _ => false,
        },
        None => false,
    };
    begins && named
}

fn begins_type(word: &str) -> bool {
    word == "struct" || word == "enum" || word == "union"
}

// Returns whether the word begins a field type that is refused.
fn is_reserved(word: &str) -> bool {
    matches!(
        word,
        "dyn" | "impl" | "fn" | "for" | "mut" | "const" | "unsafe" | "extern" | "where"
    )
}

// Reads tokens in order.
#[derive(Drop)]
struct Reader<'t> {
    alloc: Global,
    tokens: &'t [Token],
    at: usize,
}

impl<'t> Reader<'t> {
    fn peek(&self) -> Option<&'t Kind> {
        let tokens: &'t [Token] = self.tokens;
        match tokens.get(self.at) {
            Some(token) => Some(&token.kind),
            None => None,
        }
    }

    fn next(&mut self) {
        self.at = self.at.saturating_add(1);
    }

    fn is_at(&self, mark: char) -> bool {
        match self.peek() {
            Some(Kind::Mark(other)) => *other == mark,
            _ => false,
        }
    }

    fn is_at_one(&self, marks: &[char]) -> bool {
        marks.iter().any(|mark| self.is_at(*mark))
    }

    fn is_at_word(&self, word: &str) -> bool {
        match self.peek() {
            Some(Kind::Word(other)) => other.as_str() == word,
            _ => false,
        }
    }

    // Skips the mark, and returns whether it was here.
    fn eat(&mut self, mark: char) -> bool {
        let stands = self.is_at(mark);
        if stands {
            self.next();
        }
        stands
    }

    fn expect(&mut self, mark: char) -> Result<(), Unread> {
        if self.eat(mark) {
            Ok(())
        } else {
            Err(self.refused(Why::Expected(mark)))
        }
    }

    // Returns the line of the current token, or of the last one at the end.
    fn line(&self) -> usize {
        match self.tokens.get(self.at) {
            Some(token) => token.line,
            None => self.tokens.last().map_or(1, |token| token.line),
        }
    }

    fn refused(&self, why: Why) -> Unread {
        Unread::Refused(self.line(), why)
    }

    fn name(&mut self) -> Result<String, Unread> {
        match self.peek() {
            Some(Kind::Word(word)) => {
                let name = String::from_str(self.alloc, word.as_str())?;
                self.next();
                Ok(name)
            }
            _ => Err(self.refused(Why::NameExpected)),
        }
    }

    // Reads the attributes and what follows the name. `word` stands at `begun`, before the name.
    fn description(&mut self, word: &str, begun: usize, name: &str) -> Result<Description, Unread> {
        let Attributes { named, .. } = self.attributes(Owner::Type, word == "enum")?;
        self.at = begun.saturating_add(2);
        if word == "union" {
            return Err(self.refused(Why::Union));
        }
        let mut generics = self.generics()?;
        let body = self.body(word, &mut generics)?;
        let name = String::from_str(self.alloc, name)?;
        Ok(Description {
            name,
            derives: named,
            generics,
            body,
        })
    }

    // Reads what follows the parameters, and the where clause. `word` comes before the name.
    fn body(&mut self, word: &str, generics: &mut Generics) -> Result<Body, Unread> {
        self.where_clause(generics)?;
        if word == "enum" {
            self.expect('{')?;
            return Ok(Body::Enum(self.variants()?));
        }
        if self.eat(';') {
            return Ok(Body::Struct(Value::Nothing));
        }
        if self.is_at('(') {
            let value = self.value()?;
            self.where_clause(generics)?;
            self.expect(';')?;
            return Ok(Body::Struct(value));
        }
        self.expect('{')?;
        Ok(Body::Struct(Value::Fields(self.fields()?)))
    }

    // Reads the parameters in `<` and `>`, if there are any.
    fn generics(&mut self) -> Result<Generics, Unread> {
        let mut generics = Generics::none(self.alloc);
        if !self.eat('<') {
            return Ok(generics);
        }
        for _ in 0..self.tokens.len() {
            if self.is_at('>') {
                break;
            }
            let param = self.parameter()?;
            if generics.has(param.name.as_str()) {
                return Err(self.refused(Why::Parameter));
            }
            add(&mut generics.params, param)?;
            if !self.eat(',') {
                break;
            }
        }
        self.expect('>')?;
        Ok(generics)
    }

    // Reads a parameter with its bounds or its type.
    fn parameter(&mut self) -> Result<Parameter, Unread> {
        if matches!(self.peek(), Some(Kind::Lifetime)) {
            return Err(self.refused(Why::Lifetime));
        }
        let is_const = self.is_at_word("const");
        if is_const {
            self.next();
        }
        let name = self.name()?;
        let mut bounds = Vec::new(self.alloc);
        let mut kind = None;
        if is_const {
            self.expect(':')?;
            kind = Some(self.kind_to(&['>', '='])?);
        } else if self.eat(':') {
            bounds = self.bounds(&['>', '='])?;
        }
        if self.is_at('=') {
            return Err(self.refused(Why::Default));
        }
        Ok(Parameter { name, bounds, kind })
    }

    // Reads bounds with `+` between them, up to a comma or one of the ends.
    fn bounds(&mut self, ends: &[char]) -> Result<Vec<String>, Unread> {
        let mut bounds = Vec::new(self.alloc);
        for _ in 0..self.tokens.len() {
            if self.is_at(',') || self.is_at_one(ends) {
                break;
            }
            let bound = match self.kind_to(&['+', '>', '=', '{', ';']) {
                Ok(bound) => bound,
                Err(Unread::Refused(line, Why::Type)) => {
                    return Err(Unread::Refused(line, Why::Bound));
                }
                Err(error) => return Err(error),
            };
            add(&mut bounds, bound)?;
            if !self.eat('+') {
                break;
            }
        }
        Ok(bounds)
    }

    // Reads a where clause, if there is one. Bounds of a parameter become its own.
    fn where_clause(&mut self, generics: &mut Generics) -> Result<(), Unread> {
        if !self.is_at_word("where") {
            return Ok(());
        }
        self.next();
        for _ in 0..self.tokens.len() {
            if self.is_at_one(&['{', ';']) {
                break;
            }
            let kind = self.kind_to(&[':'])?;
            self.expect(':')?;
            for bound in self.bounds(&['{', ';'])? {
                generics.bind(self.alloc, kind.as_str(), bound)?;
            }
            if !self.eat(',') {
                break;
            }
        }
        Ok(())
    }

    // Reads attributes. Skips those of other programs.
    fn attributes(&mut self, owner: Owner, is_enum: bool) -> Result<Attributes, Unread> {
        let mut all = Attributes::none(self.alloc);
        for _ in 0..self.tokens.len() {
            if !self.eat('#') {
                break;
            }
            let _inner = self.eat('!');
            self.expect('[')?;
            if self.is_at_word("columnar") {
                self.next();
                self.expect('(')?;
                self.words(owner, is_enum, &mut all)?;
                self.expect(']')?;
            } else {
                self.to_end_of('[', ']');
            }
        }
        Ok(all)
    }

    // Reads the words of an attribute, and the parenthesis that closes them.
    fn words(&mut self, owner: Owner, is_enum: bool, all: &mut Attributes) -> Result<(), Unread> {
        for _ in 0..self.tokens.len() {
            if self.is_at(')') {
                break;
            }
            if owner == Owner::Type && self.is_at_word("derive") {
                self.next();
                self.expect('(')?;
                self.derives(is_enum, all)?;
            } else if owner == Owner::Field && self.is_at_word("column") {
                if all.column.is_some() {
                    return Err(self.refused(Why::ColumnTwice));
                }
                self.next();
                self.expect('=')?;
                all.column = Some(self.column()?);
            } else {
                return Err(self.refused(Why::Attribute(owner)));
            }
            if !self.eat(',') {
                break;
            }
        }
        self.expect(')')
    }

    // Reads the names of derives, and the parenthesis that closes them.
    fn derives(&mut self, is_enum: bool, all: &mut Attributes) -> Result<(), Unread> {
        let line = self.line();
        for _ in 0..self.tokens.len() {
            if self.is_at(')') {
                break;
            }
            let word = match self.peek() {
                Some(Kind::Word(word)) if may_derive(word.as_str()) => word.as_str(),
                _ => return Err(self.refused(Why::Derive)),
            };
            if is_enum && word == "Default" {
                return Err(self.refused(Why::DefaultOfEnum));
            }
            if all.has_derive(word) {
                return Err(self.refused(Why::DeriveTwice));
            }
            add(&mut all.named, String::from_str(self.alloc, word)?)?;
            self.next();
            if !self.eat(',') {
                break;
            }
        }
        self.expect(')')?;
        match needs(all) {
            Some((one, other)) => Err(Unread::Refused(line, Why::DeriveNeeds(one, other))),
            None => Ok(()),
        }
    }

    // Reads the type in a text.
    fn column(&mut self) -> Result<String, Unread> {
        let refused = self.refused(Why::Column);
        let tokens = match self.peek() {
            Some(Kind::Literal(text)) => match tokens_of(self.alloc, text.as_str()) {
                Ok(tokens) => tokens,
                Err(Unread::Memory) => return Err(Unread::Memory),
                Err(_) => return Err(refused),
            },
            _ => return Err(refused),
        };
        let mut inner = Reader {
            alloc: self.alloc,
            tokens: tokens.as_slice(),
            at: 0,
        };
        let kind = match inner.kind(')') {
            Ok(kind) => kind,
            Err(Unread::Memory) => return Err(Unread::Memory),
            Err(_) => return Err(refused),
        };
        if inner.at < tokens.len() {
            return Err(refused);
        }
        self.next();
        Ok(kind)
    }

    // Reads attributes, and skips `pub` with its parentheses.
    fn pass_over(&mut self, owner: Owner) -> Result<Attributes, Unread> {
        let all = self.attributes(owner, false)?;
        if self.is_at_word("pub") {
            self.next();
            if self.eat('(') {
                self.to_end_of('(', ')');
            }
        }
        Ok(all)
    }

    // Skips all tokens up to the mark that closes the open bracket.
    fn to_end_of(&mut self, begin: char, end: char) {
        let mut depth = 1usize;
        for _ in 0..self.tokens.len() {
            if depth == 0 {
                break;
            }
            if self.is_at(begin) {
                depth = depth.saturating_add(1);
            } else if self.is_at(end) {
                depth = depth.saturating_sub(1);
            }
            self.next();
        }
    }

    // Reads named fields, and the brace that closes them.
    fn fields(&mut self) -> Result<Vec<Field>, Unread> {
        let mut fields = Vec::new(self.alloc);
        for _ in 0..self.tokens.len() {
            let Attributes { column, .. } = self.pass_over(Owner::Field)?;
            if self.is_at('}') {
                break;
            }
            if fields.len() == MOST_FIELDS {
                return Err(self.refused(Why::TooManyFields));
            }
            if self.is_ghost() {
                return Err(self.refused(Why::Ghost));
            }
            let name = self.name()?;
            self.expect(':')?;
            let kind = self.kind('}')?;
            add(&mut fields, Field { name, kind, column })?;
            if !self.eat(',') {
                break;
            }
        }
        if fields.is_empty() {
            return Err(self.refused(Why::NoFields));
        }
        self.expect('}')?;
        Ok(fields)
    }

    // Returns whether the word `ghost` is here, followed by a name.
    fn is_ghost(&self) -> bool {
        let after = match self.tokens.get(self.at.saturating_add(1)) {
            Some(token) => matches!(&token.kind, Kind::Word(_)),
            None => false,
        };
        self.is_at_word("ghost") && after
    }

    // Reads fields without names, and the parenthesis that closes them.
    fn types(&mut self) -> Result<Vec<Field>, Unread> {
        let mut types = Vec::new(self.alloc);
        for i in 0..self.tokens.len() {
            let Attributes { column, .. } = self.pass_over(Owner::Field)?;
            if self.is_at(')') {
                break;
            }
            if types.len() == MOST_FIELDS {
                return Err(self.refused(Why::TooManyFields));
            }
            let kind = self.kind(')')?;
            let name = format!(in self.alloc; "{i}")?;
            add(&mut types, Field { name, kind, column })?;
            if !self.eat(',') {
                break;
            }
        }
        self.expect(')')?;
        Ok(types)
    }

    fn variants(&mut self) -> Result<Vec<Variant>, Unread> {
        let mut variants = Vec::new(self.alloc);
        for _ in 0..self.tokens.len() {
            let _none = self.pass_over(Owner::Variant)?;
            if self.is_at('}') {
                break;
            }
            if variants.len() == MOST_VARIANTS {
                return Err(self.refused(Why::TooManyVariants));
            }
            let line = self.line();
            let name = self.name()?;
            if self.is_method_of(variants.as_slice(), name.as_str())? {
                return Err(Unread::Refused(line, Why::SameMethod));
            }
            let value = self.value()?;
            if self.is_at('=') {
                return Err(self.refused(Why::Discriminant));
            }
            add(&mut variants, Variant { name, value })?;
            if !self.eat(',') {
                break;
            }
        }
        if variants.is_empty() {
            return Err(self.refused(Why::NoVariants));
        }
        self.expect('}')?;
        Ok(variants)
    }

    // Returns whether the method of a variant of this name is that of one of these variants.
    fn is_method_of(&self, variants: &[Variant], name: &str) -> Result<bool, AllocError> {
        let method = method_name(self.alloc, name)?;
        for variant in variants {
            let other = method_name(self.alloc, variant.name.as_str())?;
            if other.as_str() == method.as_str() {
                return Ok(true);
            }
        }
        Ok(false)
    }

    // Reads the fields of a variant or of a struct without names, if any; refuses empty braces and parentheses.
    fn value(&mut self) -> Result<Value, Unread> {
        if self.eat('(') {
            let types = self.types()?;
            if types.is_empty() {
                return Err(self.refused(Why::NoFields));
            }
            return Ok(Value::Types(types));
        }
        if self.eat('{') {
            return Ok(Value::Fields(self.fields()?));
        }
        Ok(Value::Nothing)
    }

    // Reads a type as written, up to a comma or `end`.
    fn kind(&mut self, end: char) -> Result<String, Unread> {
        self.kind_to(&[end])
    }

    // Returns whether a mark ends a type. Two colons do not.
    fn is_at_end(&self, ends: &[char]) -> bool {
        let colons = self.is_at(':')
            && match self.tokens.get(self.at.saturating_add(1)) {
                Some(token) => matches!(&token.kind, Kind::Mark(':')),
                None => false,
            };
        self.is_at(',') || (self.is_at_one(ends) && !colons)
    }

    // Reads a type as written, up to a comma or one of the ends.
    fn kind_to(&mut self, ends: &[char]) -> Result<String, Unread> {
        let mut text = TypeText::new(self.alloc);
        for _ in 0..self.tokens.len() {
            if text.is_whole() && self.is_at_end(ends) {
                break;
            }
            let taken = match self.peek() {
                Some(Kind::Word(word)) => text.word(word.as_str())?,
                Some(Kind::Mark(':')) => {
                    self.next();
                    self.is_at(':') && text.mark(':')?
                }
                Some(Kind::Mark(mark)) => text.mark(*mark)?,
                Some(Kind::Lifetime) => return Err(self.refused(Why::Lifetime)),
                Some(Kind::Literal(_)) => false,
                None => break,
            };
            if !taken {
                let why = if self.is_at('&') {
                    Why::Lifetime
                } else {
                    Why::Type
                };
                return Err(self.refused(why));
            }
            self.next();
        }
        if text.is_empty() || !text.is_whole() {
            return Err(self.refused(Why::Type));
        }
        Ok(text.text)
    }
}

fn add<T: Drop>(items: &mut Vec<T>, item: T) -> Result<(), AllocError> {
    match items.push(item) {
        Ok(()) => Ok(()),
        Err(error) => Err(AllocError::from(error)),
    }
}

// The text of a type, which grows token by token.
#[derive(Drop)]
struct TypeText {
    text: String,
    // The open brackets, each with the number of its commas; for an array, of its lengths.
    begun: Vec<(char, usize)>,
    after_word: bool,
    // Whether a comma must be written before the next token.
    comma: bool,
}

impl TypeText {
    fn new(alloc: Global) -> TypeText {
        TypeText {
            text: String::new(alloc),
            begun: Vec::new(alloc),
            after_word: false,
            comma: false,
        }
    }

    fn is_empty(&self) -> bool {
        self.text.as_str().is_empty()
    }

    // Returns whether all brackets are closed.
    fn is_whole(&self) -> bool {
        self.begun.is_empty()
    }

    fn end_comma(&mut self) -> Result<(), AllocError> {
        if self.comma {
            self.comma = false;
            self.text.push_str(", ")?;
        }
        Ok(())
    }

    // Adds a name or a number; returns false if it cannot be here.
    fn word(&mut self, word: &str) -> Result<bool, AllocError> {
        if self.after_word || is_reserved(word) {
            return Ok(false);
        }
        self.end_comma()?;
        self.text.push_str(word)?;
        self.after_word = true;
        Ok(true)
    }

    // Adds a mark; returns false if it cannot be here. A colon means two.
    fn mark(&mut self, mark: char) -> Result<bool, AllocError> {
        let after_word = self.after_word;
        match mark {
            ':' if after_word => self.text.push_str("::")?,
            '<' if after_word => self.begin(mark)?,
            '(' | '[' if !after_word => self.begin(mark)?,
            '>' if after_word || self.comma => return self.end(mark, '<'),
            ')' => return self.end(mark, '('),
            ']' if after_word => return self.end(mark, '['),
            ',' => return Ok(self.add_comma()),
            ';' if after_word && self.add_length() => self.text.push_str("; ")?,
            _ => return Ok(false),
        }
        self.after_word = false;
        Ok(true)
    }

    fn begin(&mut self, mark: char) -> Result<(), AllocError> {
        self.end_comma()?;
        self.text.push(mark)?;
        add(&mut self.begun, (mark, 0))
    }

    // Adds a comma; returns false if none can be here: in an array, or without a type before it.
    fn add_comma(&mut self) -> bool {
        let may = self.after_word && !self.comma;
        match self.begun.last_mut() {
            Some(('[', _)) => return false,
            Some((_, commas)) => *commas = commas.saturating_add(1),
            None => {}
        }
        self.comma = true;
        self.after_word = false;
        may
    }

    // Adds a length; returns true only in an array that has none yet.
    fn add_length(&mut self) -> bool {
        match self.begun.last_mut() {
            Some(('[', lengths)) if *lengths == 0 => {
                *lengths = 1;
                true
            }
            _ => false,
        }
    }

    // Closes a bracket; returns false if it does not fit, or if an array has no length. Keeps a comma before the end
    // only in a tuple of one.
    fn end(&mut self, mark: char, begin: char) -> Result<bool, AllocError> {
        let commas = match self.begun.pop() {
            Some(('[', lengths)) if lengths == 0 => return Ok(false),
            Some((begun, commas)) if begun == begin => commas,
            _ => return Ok(false),
        };
        if self.comma && mark == ')' && commas == 1 {
            self.text.push(',')?;
        }
        self.comma = false;
        self.text.push(mark)?;
        self.after_word = true;
        Ok(true)
    }
}
