//! The tokens that are left to a parser.

ghost use Rattle.std.specs.Prelude.{◌≡◌, ◌<◌, length, IfOk, Ok, [], ◌∷◌};
ghost use Rattle.ep_grammar.specs.Classes.{same, has, class_of, class_of_name, line_of, after_first};
ghost use Rattle.ep_grammar.specs.Classes.{Word, Symbol, Number, Text, Interface, Implementation, Forward};
ghost use Rattle.ep_grammar.specs.Classes.{exactly, names, numbers, texts, signs, directions};
ghost use Rattle.ep_grammar.specs.Classes.{relational_operators, adding_operators, multiplying_operators};
ghost use Rattle.ep_token.specs.declared.word.TheConstants as word;
ghost use Rattle.ep_grammar.specs.Reading.{Reads, read_token};
ghost use Rattle.ep_reader.specs.Options.{ReadsOperator, flag_by};
ghost use Rattle.ep_grammar.specs.Expressions.{of_name, of_selector, of_factor, of_expression, of_element, of_values};
ghost use Rattle.ep_grammar.specs.Types.{of_structure};
ghost use Rattle.ep_grammar.specs.Statements.{of_loop};
ghost use Rattle.ep_grammar.specs.Declarations.{of_function_rest, of_parts, of_block};
ghost use Rattle.ep_grammar.specs.Units.{of_component};
ghost use Rattle.ep_grammar.specs.Rules.{inside_at, Deepens};

use ep_base::{Bytes, Line, List, Name};
use ep_grammar::Stop;
use ep_token::{Token, TokenKind, symbol, word};
use ep_tree::{AddingOperator, Direction, MultiplyingOperator, RelationalOperator, Sign};
use std::alloc::Global;
use std::marker::Model;

/// The tokens that are left, seen as their list.
#[derive(Drop)]
pub struct Reader<'a> {
    rest: &'a [Token],
}

impl<'a> Model for Reader<'a> {
    ghost use Rattle.std.specs.Prelude.{List};
    ghost use Rattle.ep_token.specs.declared.token.Token.{Token};

    ghost Value = { List Token };

    ghost view = { λ r. r.rest.now };
}

/// How many levels may stand inside what opens one, where `begins` tells whether the next token does.
#[tactic(auto, unfolding(ep_grammar::specs::Rules::inside_at))]
pub fn level(room: u32, begins: bool) -> Result<u32, Stop>
    ensures inner { Deepens (inside_at room) begins result }
    ensures less { IfOk result (λ k. k < room) }
{
    if room == 0 {
        Err(if begins { Stop::Nested } else { Stop::Syntax })
    } else {
        Ok(room - 1)
    }
}

impl<'a> Reader<'a> {
    /// A reader of these tokens.
    pub fn new(tokens: &'a [Token]) -> Reader<'a>
        ensures { result ≡ tokens.now }
    {
        Reader { rest: tokens }
    }

    /// How many tokens are left.
    pub fn left(&self) -> usize
        ensures { result ≡ length self.now }
    {
        self.rest.len()
    }

    /// The line of the next token.
    pub fn line(&self) -> Line
        ensures { result ≡ line_of self.now }
    {
        match self.rest {
            [] => 0,
            [first, ..] => first.line,
        }
    }

    /// Whether the next token is this word symbol.
    #[tactic(auto, unfolding(ep_grammar::specs::Classes::class_of_name))]
    pub fn sees_word(&self, word: u8) -> bool
        ensures { result ≡ same (class_of self.now) (Word word) }
    {
        match self.rest {
            [] => false,
            [first, ..] => match first.kind {
                TokenKind::Word(w) => w == word,
                TokenKind::Id(_) => false,
                TokenKind::Number(_) => false,
                TokenKind::Str(_) => false,
                TokenKind::Sym(_) => false,
            },
        }
    }

    /// Whether the next token is this special symbol.
    #[tactic(auto, unfolding(ep_grammar::specs::Classes::class_of_name))]
    pub fn sees_symbol(&self, symbol: u8) -> bool
        ensures { result ≡ same (class_of self.now) (Symbol symbol) }
    {
        match self.rest {
            [] => false,
            [first, ..] => match first.kind {
                TokenKind::Sym(s) => s == symbol,
                TokenKind::Word(_) => false,
                TokenKind::Id(_) => false,
                TokenKind::Number(_) => false,
                TokenKind::Str(_) => false,
            },
        }
    }

    /// Passes over the next token.
    pub fn skip(&mut self)
        ensures { self.new ≡ after_first self.old }
    {
        if let [_, more @ ..] = self.rest {
            self.rest = more;
        }
    }

    /// Takes this word symbol.
    pub fn keyword(&mut self, word: u8) -> Result<(), Stop>
        ensures { Reads (read_token (exactly (Word word)) self.old) result self.new }
    {
        if !self.sees_word(word) {
            return Err(Stop::Syntax);
        }
        self.skip();
        Ok(())
    }

    /// Takes this special symbol.
    pub fn symbol(&mut self, symbol: u8) -> Result<(), Stop>
        ensures { Reads (read_token (exactly (Symbol symbol)) self.old) result self.new }
    {
        if !self.sees_symbol(symbol) {
            return Err(Stop::Syntax);
        }
        self.skip();
        Ok(())
    }

    /// Takes a name.
    pub fn name(&mut self, alloc: Global) -> Result<Name, Stop>
        ensures { Reads (read_token names self.old) result self.new }
    {
        let found = match self.rest {
            [] => return Err(Stop::Syntax),
            [first, ..] => match &first.kind {
                TokenKind::Id(name) => name.copy(alloc)?,
                _ => return Err(Stop::Syntax),
            },
        };
        self.skip();
        Ok(found)
    }

    /// Takes an unsigned number.
    pub fn number(&mut self) -> Result<i64, Stop>
        ensures { Reads (read_token numbers self.old) result self.new }
    {
        let found = match self.rest {
            [] => return Err(Stop::Syntax),
            [first, ..] => match first.kind {
                TokenKind::Number(n) => n,
                _ => return Err(Stop::Syntax),
            },
        };
        self.skip();
        Ok(found)
    }

    /// Takes a character string.
    pub fn text(&mut self, alloc: Global) -> Result<Bytes, Stop>
        ensures { Reads (read_token texts self.old) result self.new }
    {
        let found = match self.rest {
            [] => return Err(Stop::Syntax),
            [first, ..] => match &first.kind {
                TokenKind::Str(bytes) => Bytes::from_slice(alloc, bytes.items())?,
                _ => return Err(Stop::Syntax),
            },
        };
        self.skip();
        Ok(found)
    }

    /// Takes a relational operator, if one comes next.
    pub fn relational_operator(&mut self) -> Option<RelationalOperator>
        ensures { ReadsOperator relational_operators result self.old self.new }
    {
        let found = if self.sees_symbol(symbol::EQUAL) {
            RelationalOperator::Equal
        } else if self.sees_symbol(symbol::NOT_EQUAL) {
            RelationalOperator::NotEqual
        } else if self.sees_symbol(symbol::LESS) {
            RelationalOperator::Less
        } else if self.sees_symbol(symbol::GREATER) {
            RelationalOperator::Greater
        } else if self.sees_symbol(symbol::AT_MOST) {
            RelationalOperator::AtMost
        } else if self.sees_symbol(symbol::AT_LEAST) {
            RelationalOperator::AtLeast
        } else if self.sees_word(word::IN) {
            RelationalOperator::In
        } else {
            return None;
        };
        self.skip();
        Some(found)
    }

    /// Takes a sign, if one comes next.
    pub fn sign(&mut self) -> Option<Sign>
        ensures { ReadsOperator signs result self.old self.new }
    {
        let found = if self.sees_symbol(symbol::PLUS) {
            Sign::Plus
        } else if self.sees_symbol(symbol::MINUS) {
            Sign::Minus
        } else {
            return None;
        };
        self.skip();
        Some(found)
    }

    /// Takes an adding operator, if one comes next.
    pub fn adding_operator(&mut self) -> Option<AddingOperator>
        ensures { ReadsOperator adding_operators result self.old self.new }
    {
        let found = if self.sees_symbol(symbol::PLUS) {
            AddingOperator::Plus
        } else if self.sees_symbol(symbol::MINUS) {
            AddingOperator::Minus
        } else if self.sees_symbol(symbol::SYMMETRIC_DIFFERENCE) {
            AddingOperator::SymmetricDifference
        } else if self.sees_word(word::OR) {
            AddingOperator::Or
        } else if self.sees_word(word::OR_ELSE) {
            AddingOperator::OrElse
        } else {
            return None;
        };
        self.skip();
        Some(found)
    }

    /// Takes a multiplying operator, if one comes next.
    pub fn multiplying_operator(&mut self) -> Option<MultiplyingOperator>
        ensures { ReadsOperator multiplying_operators result self.old self.new }
    {
        let found = if self.sees_symbol(symbol::STAR) {
            MultiplyingOperator::Times
        } else if self.sees_word(word::DIV) {
            MultiplyingOperator::Div
        } else if self.sees_word(word::MOD) {
            MultiplyingOperator::Mod
        } else if self.sees_word(word::AND) {
            MultiplyingOperator::And
        } else if self.sees_word(word::AND_THEN) {
            MultiplyingOperator::AndThen
        } else {
            return None;
        };
        self.skip();
        Some(found)
    }

    /// Takes a direction.
    pub fn direction(&mut self) -> Result<Direction, Stop>
        ensures { Reads (read_token directions self.old) result self.new }
    {
        let found = if self.sees_word(word::TO) {
            Direction::To
        } else if self.sees_word(word::DOWNTO) {
            Direction::Downto
        } else {
            return Err(Stop::Syntax);
        };
        self.skip();
        Ok(found)
    }

    /// Whether the next token is a name.
    #[tactic(auto, unfolding(ep_grammar::specs::Classes::class_of_name))]
    pub fn sees_name(&self) -> bool
        ensures { result ≡ has of_name (class_of self.now) }
    {
        match self.rest {
            [] => false,
            [first, ..] => match first.kind {
                TokenKind::Word(_) => false,
                TokenKind::Id(_) => true,
                TokenKind::Number(_) => false,
                TokenKind::Str(_) => false,
                TokenKind::Sym(_) => false,
            },
        }
    }

    /// Whether the next token is a number.
    #[tactic(auto, unfolding(ep_grammar::specs::Classes::class_of_name))]
    pub fn sees_number(&self) -> bool
        ensures { result ≡ same (class_of self.now) Number }
    {
        match self.rest {
            [] => false,
            [first, ..] => match first.kind {
                TokenKind::Word(_) => false,
                TokenKind::Id(_) => false,
                TokenKind::Number(_) => true,
                TokenKind::Str(_) => false,
                TokenKind::Sym(_) => false,
            },
        }
    }

    /// Whether the next token is a character string.
    #[tactic(auto, unfolding(ep_grammar::specs::Classes::class_of_name))]
    pub fn sees_text(&self) -> bool
        ensures { result ≡ same (class_of self.now) Text }
    {
        match self.rest {
            [] => false,
            [first, ..] => match first.kind {
                TokenKind::Word(_) => false,
                TokenKind::Id(_) => false,
                TokenKind::Number(_) => false,
                TokenKind::Str(_) => true,
                TokenKind::Sym(_) => false,
            },
        }
    }

    /// Whether the next token can begin a selector.
    pub fn begins_selector(&self) -> bool
        ensures { result ≡ has of_selector (class_of self.now) }
    {
        self.sees_symbol(symbol::PERIOD)
            || self.sees_symbol(symbol::LEFT_BRACKET)
            || self.sees_symbol(symbol::CARET)
            || self.sees_symbol(symbol::LEFT_PARENTHESIS)
    }

    /// Whether the next token can begin a factor.
    fn begins_factor(&self) -> bool
        ensures { result ≡ has of_factor (class_of self.now) }
    {
        if self.sees_name() {
            return true;
        }
        self.sees_number()
            || self.sees_text()
            || self.sees_word(word::NIL)
            || self.sees_word(word::NOT)
            || self.sees_symbol(symbol::LEFT_PARENTHESIS)
            || self.sees_symbol(symbol::LEFT_BRACKET)
    }

    /// Whether the next token can begin an expression.
    pub fn begins_expression(&self) -> bool
        ensures { result ≡ has of_expression (class_of self.now) }
    {
        self.sees_symbol(symbol::PLUS) || self.sees_symbol(symbol::MINUS) || self.begins_factor()
    }

    /// Whether the next token can begin values.
    pub fn begins_values(&self) -> bool
        ensures { result ≡ has of_values (class_of self.now) }
    {
        self.sees_word(word::OTHERWISE) || self.sees_word(word::CASE) || self.begins_expression()
    }

    /// Whether the next token begins values that begin with no labels.
    pub fn begins_other_values(&self) -> bool
        ensures { result ≡ has (Word word.OTHERWISE ∷ Word word.CASE ∷ []) (class_of self.now) }
    {
        self.sees_word(word::OTHERWISE) || self.sees_word(word::CASE)
    }

    /// Whether the next token can begin an element.
    pub fn begins_element(&self) -> bool
        ensures { result ≡ has of_element (class_of self.now) }
    {
        self.sees_word(word::CASE) || self.begins_expression()
    }

    /// Takes this word symbol, if it comes next, and tells whether it did.
    pub fn takes_word(&mut self, word: u8) -> bool
        ensures { flag_by word self.old ≡ Ok (result, self.new) }
    {
        if !self.sees_word(word) {
            return false;
        }
        self.skip();
        true
    }

    /// Whether the next token can begin a structured type.
    pub fn begins_structure(&self) -> bool
        ensures { result ≡ has of_structure (class_of self.now) }
    {
        self.sees_word(word::PACKED)
            || self.sees_word(word::ARRAY)
            || self.sees_word(word::RECORD)
            || self.sees_word(word::SET)
    }

    /// Whether the next token can begin a statement of a loop or `with`.
    pub fn begins_loop(&self) -> bool
        ensures { result ≡ has of_loop (class_of self.now) }
    {
        self.sees_word(word::WHILE)
            || self.sees_word(word::REPEAT)
            || self.sees_word(word::FOR)
            || self.sees_word(word::WITH)
    }

    /// Whether the next token can begin what follows the name in the heading of a function.
    pub fn begins_function_rest(&self) -> bool
        ensures { result ≡ has of_function_rest (class_of self.now) }
    {
        self.sees_symbol(symbol::LEFT_PARENTHESIS)
            || self.sees_symbol(symbol::EQUAL)
            || self.sees_symbol(symbol::COLON)
    }

    /// Whether the next token can begin a routine.
    pub fn begins_routine(&self) -> bool
        ensures { result ≡ has (Word word.PROCEDURE ∷ Word word.FUNCTION ∷ []) (class_of self.now) }
    {
        self.sees_word(word::PROCEDURE) || self.sees_word(word::FUNCTION)
    }

    /// Whether the next token can begin a part of a block.
    pub fn begins_part(&self) -> bool
        ensures { result ≡ has of_parts (class_of self.now) }
    {
        self.sees_word(word::CONST)
            || self.sees_word(word::TYPE)
            || self.sees_word(word::VAR)
            || self.sees_word(word::PROCEDURE)
            || self.sees_word(word::FUNCTION)
    }

    /// Whether the next token can begin a block.
    pub fn begins_block(&self) -> bool
        ensures { result ≡ has of_block (class_of self.now) }
    {
        self.sees_word(word::CONST)
            || self.sees_word(word::TYPE)
            || self.sees_word(word::VAR)
            || self.sees_word(word::PROCEDURE)
            || self.sees_word(word::FUNCTION)
            || self.sees_word(word::BEGIN)
    }

    /// Whether the next token can begin a component.
    pub fn begins_component(&self) -> bool
        ensures { result ≡ has of_component (class_of self.now) }
    {
        self.sees_word(word::PROGRAM) || self.sees_word(word::MODULE)
    }

    /// Whether the next token is the identifier `interface`.
    pub fn sees_interface(&self) -> bool
        ensures { result ≡ same (class_of self.now) Interface }
    {
        match self.rest {
            [] => false,
            [first, ..] => match &first.kind {
                TokenKind::Word(_) => false,
                TokenKind::Id(name) => is_interface(name.bytes()),
                TokenKind::Number(_) => false,
                TokenKind::Str(_) => false,
                TokenKind::Sym(_) => false,
            },
        }
    }

    /// Takes the identifier `interface`.
    pub fn interface(&mut self) -> Result<(), Stop>
        ensures { Reads (read_token (exactly Interface) self.old) result self.new }
    {
        if !self.sees_interface() {
            return Err(Stop::Syntax);
        }
        self.skip();
        Ok(())
    }

    /// Whether the next token is the identifier `implementation`.
    pub fn sees_implementation(&self) -> bool
        ensures { result ≡ same (class_of self.now) Implementation }
    {
        match self.rest {
            [] => false,
            [first, ..] => match &first.kind {
                TokenKind::Word(_) => false,
                TokenKind::Id(name) => is_implementation(name.bytes()),
                TokenKind::Number(_) => false,
                TokenKind::Str(_) => false,
                TokenKind::Sym(_) => false,
            },
        }
    }

    /// Takes the identifier `implementation`.
    pub fn implementation(&mut self) -> Result<(), Stop>
        ensures { Reads (read_token (exactly Implementation) self.old) result self.new }
    {
        if !self.sees_implementation() {
            return Err(Stop::Syntax);
        }
        self.skip();
        Ok(())
    }

    /// Whether the next token is the identifier `forward`.
    pub fn sees_forward(&self) -> bool
        ensures { result ≡ same (class_of self.now) Forward }
    {
        match self.rest {
            [] => false,
            [first, ..] => match &first.kind {
                TokenKind::Word(_) => false,
                TokenKind::Id(name) => is_forward(name.bytes()),
                TokenKind::Number(_) => false,
                TokenKind::Str(_) => false,
                TokenKind::Sym(_) => false,
            },
        }
    }

    /// Takes the identifier `forward`.
    pub fn forward(&mut self) -> Result<(), Stop>
        ensures { Reads (read_token (exactly Forward) self.old) result self.new }
    {
        if !self.sees_forward() {
            return Err(Stop::Syntax);
        }
        self.skip();
        Ok(())
    }
}

/// Whether this is the spelling of `interface`.
#[tactic(auto, using(crate::proofs::Spellings::interface_is))]
fn is_interface(spelling: &[u8]) -> bool
    ensures { result ≡ same (class_of_name spelling.now) Interface }
{
    spelling == b"interface".as_slice()
}

/// Whether this is the spelling of `implementation`.
#[tactic(auto, using(crate::proofs::Spellings::implementation_is))]
fn is_implementation(spelling: &[u8]) -> bool
    ensures { result ≡ same (class_of_name spelling.now) Implementation }
{
    spelling == b"implementation".as_slice()
}

/// Whether this is the spelling of `forward`.
#[tactic(auto, using(crate::proofs::Spellings::forward_is))]
fn is_forward(spelling: &[u8]) -> bool
    ensures { result ≡ same (class_of_name spelling.now) Forward }
{
    spelling == b"forward".as_slice()
}
