ghost use Rattle.std.specs.Prelude.{◌≡◌, IfOk, option_map, suc};
ghost use Rattle.lk_sql_read.specs.Tokens.{first_token};
ghost use Rattle.lk_sql_read.specs.Machine.{State, begun, begun_word, behind_node, behind_operand, closed, denied, gone_on, is_done, literal, next_by, node_of, opened, start, step, then_among, then_branch, then_close, then_comma, then_end, then_listing, then_sign, then_summed, then_value, turned};

use crate::open::Open;
use crate::token::{Token, first_token};
use crate::word::Word;
use lk_sql_tree::{Fold, SqlNode};
use lk_val::{Items, NoMemory, Value};
use std::alloc::Global;
use std::marker::Model;

/// What is read of an expression so far.
#[derive(Drop)]
pub(crate) struct Reader {
    pub(crate) nodes: Items<SqlNode>,
    below: Vec<Open>,
    top: Open,
    behind: bool,
}

impl Model for Reader {
    ghost use Rattle.lk_sql_read.specs.Machine.{State};

    ghost Value = { State };

    ghost view = { λ r. record { nodes = r.nodes; below = r.below.items; top = r.top; behind = r.behind } };
}

// The reader behind a token; none where no expression goes on so.
type Next = Result<Option<Reader>, NoMemory>;

impl Reader {
    /// Nothing is read.
    pub(crate) fn new(alloc: Global) -> Reader
        ensures { result ≡ start }
    {
        Reader {
            nodes: Items::new(alloc),
            below: Vec::new(alloc),
            top: Open::Outer,
            behind: false,
        }
    }

    // A whole operand more.
    fn behind_node(self, node: SqlNode) -> Result<Reader, NoMemory>
        ensures { IfOk result (λ r. r ≡ behind_node node self) }
    {
        let Reader {
            mut nodes,
            below,
            top,
            ..
        } = self;
        nodes.push(node)?;
        Ok(Reader {
            nodes,
            below,
            top,
            behind: true,
        })
    }

    // Something opens.
    fn opened(self, next: Open) -> Result<Reader, NoMemory>
        ensures { IfOk result (λ r. r ≡ opened next self) }
    {
        let Reader {
            nodes,
            mut below,
            top,
            ..
        } = self;
        match below.push(top) {
            Ok(()) => Ok(Reader {
                nodes,
                below,
                top: next,
                behind: false,
            }),
            Err(_) => Err(NoMemory),
        }
    }

    // What stands open goes on, with an operand or behind one.
    fn turned(self, next: Open, behind: bool) -> Reader
        ensures { result ≡ turned next behind self }
    {
        let Reader { nodes, below, .. } = self;
        Reader {
            nodes,
            below,
            top: next,
            behind,
        }
    }

    // What stands open closes, and is a node.
    fn closed(self, node: SqlNode) -> Next
        ensures { IfOk result (λ r. r ≡ closed node self) }
    {
        let Reader {
            nodes,
            mut below,
            ..
        } = self;
        match below.pop() {
            None => Ok(None),
            Some(top) => {
                let reader = Reader {
                    nodes,
                    below,
                    top,
                    behind: true,
                };
                Ok(Some(reader.behind_node(node)?))
            }
        }
    }

    // NOT or a sign, where a bracket has just opened.
    fn denied(self, word: Word) -> Option<Reader>
        ensures { result ≡ denied word self.top self }
    {
        match self.top {
            Open::Opened => Some(self.turned(Open::Closing(word), false)),
            _ => None,
        }
    }

    // A word where an operand begins.
    fn begun_word(self, word: Word) -> Next
        ensures { IfOk result (λ r. r ≡ begun_word word self) }
    {
        Ok(Some(match word {
            Word::Open => self.opened(Open::Opened)?,
            Word::Not | Word::Minus => return Ok(self.denied(word)),
            Word::Null => self.behind_node(SqlNode::Literal(Value::Null))?,
            Word::True => self.behind_node(SqlNode::Literal(Value::Truth(true)))?,
            Word::False => self.behind_node(SqlNode::Literal(Value::Truth(false)))?,
            Word::CountRows => self.behind_node(SqlNode::CountRows)?,
            Word::Case => self.opened(Open::When(0))?,
            Word::Coalesce => self.opened(Open::Listing(0))?,
            Word::NullIf | Word::ByKey(_) => self.opened(Open::First(word))?,
            Word::Folded(Fold::Sum) => self.opened(Open::Summing)?,
            Word::Folded(_) | Word::Framed(_) => self.opened(Open::Closing(word))?,
            Word::Lower | Word::Upper => self.opened(Open::Closing(word))?,
            _ => return Ok(None),
        }))
    }

    // A literal. The 0 of a sum is no operand.
    fn literal(self, value: Value) -> Result<Reader, NoMemory>
        ensures { IfOk result (λ r. r ≡ literal value self.top self) }
    {
        match self.top {
            Open::Zero => Ok(self.turned(Open::Zeroed, true)),
            _ => self.behind_node(SqlNode::Literal(value)),
        }
    }

    // A token where an operand begins.
    fn begun(self, token: Token) -> Next
        ensures { IfOk result (λ r. r ≡ begun token self) }
    {
        match token {
            Token::Word(word) => self.begun_word(word),
            Token::Column { part, name } => {
                Ok(Some(self.behind_node(SqlNode::Column { part, name })?))
            }
            Token::Literal(value) => Ok(Some(self.literal(value)?)),
            Token::Like(_) => Ok(None),
        }
    }

    // A word behind the first operand in brackets.
    fn then_sign(self, word: Word) -> Option<Reader>
        ensures { result ≡ then_sign word self }
    {
        match word {
            Word::And | Word::Or | Word::Compare(_) | Word::Number(_) | Word::Concat => {
                Some(self.turned(Open::Closing(word), false))
            }
            Word::IsNull => Some(self.turned(Open::Closing(word), true)),
            Word::In => Some(self.turned(Open::Among(1), false)),
            _ => None,
        }
    }

    fn then_close(self, node: SqlNode, word: Word) -> Next
        ensures { IfOk result (λ r. r ≡ then_close node word self) }
    {
        match word {
            Word::Close => self.closed(node),
            _ => Ok(None),
        }
    }

    fn then_comma(self, next: Open, word: Word) -> Option<Reader>
        ensures { result ≡ then_comma next word self }
    {
        match word {
            Word::Comma => Some(self.turned(next, false)),
            _ => None,
        }
    }

    // Behind an item of the list of IN, with so many operands.
    fn then_among(self, count: usize, word: Word) -> Option<Reader>
        ensures { result ≡ then_among count word self }
    {
        match word {
            Word::Comma => Some(self.turned(Open::Among(count), false)),
            Word::Close => Some(self.turned(Open::Listed(count), true)),
            _ => None,
        }
    }

    fn then_listing(self, count: usize, word: Word) -> Next
        ensures { IfOk result (λ r. r ≡ then_listing count word self) }
    {
        match word {
            Word::Comma => Ok(Some(self.turned(Open::Listing(count), false))),
            Word::Close => self.closed(SqlNode::Coalesce(count)),
            _ => Ok(None),
        }
    }

    fn then_summed(self, word: Word) -> Option<Reader>
        ensures { result ≡ then_summed word self }
    {
        match word {
            Word::Close => Some(self.turned(Open::Summed, true)),
            _ => None,
        }
    }

    // Behind the condition of a branch.
    fn then_value(self, count: usize, word: Word) -> Option<Reader>
        ensures { result ≡ then_value count word self }
    {
        match word {
            Word::Then => Some(self.turned(Open::Then(count), false)),
            _ => None,
        }
    }

    // Behind the value of a branch.
    fn then_branch(self, count: usize, word: Word) -> Next
        ensures { IfOk result (λ r. r ≡ then_branch count word self) }
    {
        match word {
            Word::When => Ok(Some(self.turned(Open::When(count), false))),
            Word::Else => Ok(Some(self.turned(Open::Else(count), false))),
            Word::End => self.closed(SqlNode::Case(count)),
            _ => Ok(None),
        }
    }

    // Behind the value of ELSE.
    fn then_end(self, count: usize, word: Word) -> Next
        ensures { IfOk result (λ r. r ≡ then_end count word self) }
    {
        match word {
            Word::End => self.closed(SqlNode::Case(count)),
            _ => Ok(None),
        }
    }

    // A word behind an operand.
    fn gone_on(self, word: Word) -> Next
        ensures { IfOk result (λ r. r ≡ gone_on word self.top self) }
    {
        match self.top {
            Open::Outer | Open::Zero => Ok(None),
            Open::Opened => Ok(self.then_sign(word)),
            Open::Closing(of) => self.then_close(node_of(of), word),
            Open::First(of) => Ok(self.then_comma(Open::Closing(of), word)),
            Open::Among(count) => Ok(self.then_among(one_more(count)?, word)),
            Open::Listed(count) => self.then_close(SqlNode::In(count), word),
            Open::Listing(count) => self.then_listing(one_more(count)?, word),
            Open::Summing => Ok(self.then_summed(word)),
            Open::Summed => Ok(self.then_comma(Open::Zero, word)),
            Open::Zeroed => self.then_close(SqlNode::Folded(Fold::Sum), word),
            Open::When(count) => Ok(self.then_value(one_more(count)?, word)),
            Open::Then(count) => self.then_branch(one_more(count)?, word),
            Open::Else(count) => self.then_end(one_more(count)?, word),
        }
    }

    // A token behind an operand.
    fn behind_operand(self, token: Token) -> Next
        ensures { IfOk result (λ r. r ≡ behind_operand token self) }
    {
        match token {
            Token::Word(word) => self.gone_on(word),
            Token::Like(pieces) if self.top == Open::Opened => self.closed(SqlNode::Like(pieces)),
            _ => Ok(None),
        }
    }

    fn step(self, token: Token) -> Next
        ensures { IfOk result (λ r. r ≡ step token self) }
    {
        if self.behind {
            self.behind_operand(token)
        } else {
            self.begun(token)
        }
    }

    /// The reader behind the token in front of a text, and what is behind the token; none where no expression goes on so.
    pub(crate) fn next(
        self,
        alloc: Global,
        text: &[u8],
    ) -> Result<Option<(Reader, &[u8])>, NoMemory>
        ensures { IfOk result (λ found. option_map (λ first. (first.0, first.1.now)) found ≡ next_by self (first_token text.now)) }
    {
        let Some((token, rest)) = first_token(alloc, text)? else {
            return Ok(None);
        };
        match self.step(token)? {
            Some(reader) => Ok(Some((reader, rest))),
            None => Ok(None),
        }
    }

    /// Whether an operand is whole, and nothing stands open.
    pub(crate) fn is_done(&self) -> bool
        ensures { result ≡ is_done self.now }
    {
        self.behind && self.top == Open::Outer
    }
}

// A count of operands that passes the machine's numbers passes its memory.
fn one_more(count: usize) -> Result<usize, NoMemory>
    ensures { IfOk result (λ n. n ≡ suc count) }
{
    count.checked_add(1).ok_or(NoMemory)
}

// The node of a word with one operand or two.
fn node_of(word: Word) -> SqlNode
    ensures { result ≡ node_of word }
{
    match word {
        Word::And => SqlNode::And,
        Word::Or => SqlNode::Or,
        Word::Compare(comparison) => SqlNode::Compare(comparison),
        Word::Number(op) => SqlNode::Number(op),
        Word::Concat => SqlNode::Concat,
        Word::IsNull => SqlNode::IsNull,
        Word::Minus => SqlNode::Negate,
        Word::Lower => SqlNode::Lower,
        Word::Upper => SqlNode::Upper,
        Word::Framed(frame) => SqlNode::Framed(frame),
        Word::Folded(fold) => SqlNode::Folded(fold),
        Word::ByKey(fold) => SqlNode::ByKey(fold),
        Word::NullIf => SqlNode::NullIf,
        _ => SqlNode::Not,
    }
}
