// Trees that grow by one step. Each takes what was read, and answers none where nothing was.

ghost use Rattle.std.specs.Prelude.{◌≡◌, IfOk, Some};
ghost use Rattle.lk_expr_tree.specs.RawCode.{tree_of, args_of, branches_of};
ghost use Rattle.lk_expr_tree.specs.Grammar.{Case, Name};
ghost use Rattle.lk_expr_tree.specs.ParsedCode.{parsed, parsed_args, parsed_branch, parsed_branches};
ghost use Rattle.lk_expr_tree.specs.Growing.{called, compared, denied, ended_else, first_arg, first_branch, grouped, joined, leaf, liked, listed, next_arg, next_branch, null_test, upto, valued, with_sign};

use crate::expr::{RawArgs, RawBranches, RawExpr};
use crate::raw::{Joint, RawNode};
use lk_expr_token::{Keyword, Sign, Token};
use lk_types::Comparison;
use lk_val::{Bytes, NoMemory};
use std::alloc::Global;

/// A tree and the tokens behind it, where there is one.
pub type Parsed<'a> = Option<(RawExpr, &'a [Token])>;

/// Arguments and the tokens behind them.
pub type ParsedArgs<'a> = Option<(RawArgs, &'a [Token])>;

/// Branches and the tokens behind them.
pub type ParsedBranches<'a> = Option<(RawBranches, &'a [Token])>;

/// A condition, its value and the tokens behind them.
pub type ParsedBranch<'a> = Option<(RawExpr, RawExpr, &'a [Token])>;

/// A tree and what was found, as two that a sign or word joins.
pub fn joined<'a>(joint: Joint, a: RawExpr, found: Parsed<'a>) -> Result<Parsed<'a>, NoMemory>
    ensures { IfOk result (λ tree. parsed tree ≡ joined joint (tree_of a) (parsed found.entry)) }
{
    let Some((b, rest)) = found else {
        return Ok(None);
    };
    Ok(Some((RawExpr::binary(RawNode::Chain(joint), a, b)?, rest)))
}

/// NOT before what was found.
pub fn denied(found: Parsed<'_>) -> Result<Parsed<'_>, NoMemory>
    ensures { IfOk result (λ tree. parsed tree ≡ denied (parsed found.entry)) }
{
    let Some((tree, rest)) = found else {
        return Ok(None);
    };
    Ok(Some((RawExpr::unary(RawNode::Not, tree)?, rest)))
}

/// A minus before what was found.
pub fn with_sign(found: Parsed<'_>) -> Result<Parsed<'_>, NoMemory>
    ensures { IfOk result (λ tree. parsed tree ≡ with_sign (parsed found.entry)) }
{
    let Some((tree, rest)) = found else {
        return Ok(None);
    };
    Ok(Some((RawExpr::unary(RawNode::Negate, tree)?, rest)))
}

/// What was found, in brackets: the closing one comes behind it.
pub fn grouped(found: Parsed<'_>) -> Result<Parsed<'_>, NoMemory>
    ensures { IfOk result (λ tree. parsed tree ≡ grouped (parsed found.entry)) }
{
    let Some((tree, behind)) = found else {
        return Ok(None);
    };
    match behind.split_first() {
        Some((Token::Sign(Sign::Close), rest)) => {
            Ok(Some((RawExpr::unary(RawNode::Group, tree)?, rest)))
        }
        _ => Ok(None),
    }
}

/// A comparison of a tree with what was found.
pub fn compared<'a>(
    comparison: Comparison,
    a: RawExpr,
    found: Parsed<'a>,
) -> Result<Parsed<'a>, NoMemory>
    ensures { IfOk result (λ tree. parsed tree ≡ compared comparison (tree_of a) (parsed found.entry)) }
{
    let Some((b, rest)) = found else {
        return Ok(None);
    };
    Ok(Some((RawExpr::binary(RawNode::Compare(comparison), a, b)?, rest)))
}

/// A test for NULL: NULL or NOT NULL comes, behind IS.
pub fn null_test<'a>(tree: RawExpr, tokens: &'a [Token]) -> Result<Parsed<'a>, NoMemory>
    ensures { IfOk result (λ found. parsed found ≡ null_test (tree_of tree) tokens.now) }
{
    match tokens.split_first() {
        Some((Token::Word(Keyword::Null), rest)) => {
            Ok(Some((RawExpr::unary(RawNode::IsNull(false), tree)?, rest)))
        }
        Some((Token::Word(Keyword::Not), behind)) => match behind.split_first() {
            Some((Token::Word(Keyword::Null), rest)) => {
                Ok(Some((RawExpr::unary(RawNode::IsNull(true), tree)?, rest)))
            }
            _ => Ok(None),
        },
        _ => Ok(None),
    }
}

/// A tree IN the list that was found, behind which the closing bracket comes.
pub fn listed<'a>(
    negated: bool,
    tree: RawExpr,
    found: ParsedArgs<'a>,
) -> Result<Parsed<'a>, NoMemory>
    ensures { IfOk result (λ list. parsed list ≡ listed negated (tree_of tree) (parsed_args found.entry)) }
{
    let Some((args, behind)) = found else {
        return Ok(None);
    };
    match behind.split_first() {
        Some((Token::Sign(Sign::Close), rest)) => {
            Ok(Some((RawExpr::listed(negated, tree, args)?, rest)))
        }
        _ => Ok(None),
    }
}

/// A tree BETWEEN a lower bound and the upper one that was found.
pub fn upto<'a>(
    negated: bool,
    tree: RawExpr,
    low: RawExpr,
    found: Parsed<'a>,
) -> Result<Parsed<'a>, NoMemory>
    ensures { IfOk result (λ bounds. parsed bounds ≡ upto negated (tree_of tree) (tree_of low) (parsed found.entry)) }
{
    let Some((high, rest)) = found else {
        return Ok(None);
    };
    Ok(Some((
        RawExpr::ternary(RawNode::Between(negated), tree, low, high)?,
        rest,
    )))
}

/// What was found, as the first argument.
pub fn first_arg(found: Parsed<'_>) -> ParsedArgs<'_>
    ensures { parsed_args result ≡ first_arg (parsed found.entry) }
{
    let (tree, rest) = found?;
    Some((RawArgs::one(tree), rest))
}

/// What was found, behind other arguments.
pub fn next_arg<'a>(args: RawArgs, found: Parsed<'a>) -> Result<ParsedArgs<'a>, NoMemory>
    ensures { IfOk result (λ more. parsed_args more ≡ next_arg (args_of args) (parsed found.entry)) }
{
    let Some((tree, rest)) = found else {
        return Ok(None);
    };
    Ok(Some((args.with(tree)?, rest)))
}

/// A condition with the value that was found.
pub fn valued<'a>(condition: RawExpr, found: Parsed<'a>) -> ParsedBranch<'a>
    ensures { parsed_branch result ≡ valued (tree_of condition) (parsed found.entry) }
{
    let (value, rest) = found?;
    Some((condition, value, rest))
}

/// What was found, as the first branch.
pub fn first_branch(found: ParsedBranch<'_>) -> Result<ParsedBranches<'_>, NoMemory>
    ensures { IfOk result (λ branches. parsed_branches branches ≡ first_branch (parsed_branch found.entry)) }
{
    let Some((condition, value, rest)) = found else {
        return Ok(None);
    };
    Ok(Some((RawBranches::one(condition, value)?, rest)))
}

/// What was found, behind other branches.
pub fn next_branch<'a>(
    branches: RawBranches,
    found: ParsedBranch<'a>,
) -> Result<ParsedBranches<'a>, NoMemory>
    ensures { IfOk result (λ more. parsed_branches more ≡ next_branch (branches_of branches) (parsed_branch found.entry)) }
{
    let Some((condition, value, rest)) = found else {
        return Ok(None);
    };
    Ok(Some((branches.with(condition, value)?, rest)))
}

/// A call with the arguments that were found, behind which the closing bracket comes.
pub fn called<'a>(
    alloc: Global,
    name: &Bytes,
    place: usize,
    found: ParsedArgs<'a>,
) -> Result<Parsed<'a>, NoMemory>
    ensures { IfOk result (λ call. parsed call ≡ called name.now place (parsed_args found.entry)) }
{
    let Some((args, behind)) = found else {
        return Ok(None);
    };
    match behind.split_first() {
        Some((Token::Sign(Sign::Close), rest)) => {
            Ok(Some((args.called(name.copy(alloc)?, place)?, rest)))
        }
        _ => Ok(None),
    }
}

/// A CASE with the ELSE that was found, behind which END comes.
pub fn ended_else<'a>(branches: RawBranches, found: Parsed<'a>) -> Result<Parsed<'a>, NoMemory>
    ensures { IfOk result (λ tree. parsed tree ≡ ended_else (branches_of branches) (parsed found.entry)) }
{
    let Some((other, behind)) = found else {
        return Ok(None);
    };
    match behind.split_first() {
        Some((Token::Word(Keyword::End), rest)) => {
            Ok(Some((RawExpr::case_else(branches, other)?, rest)))
        }
        _ => Ok(None),
    }
}

/// A CASE without ELSE, whose END has come.
pub fn ended<'a>(branches: RawBranches, rest: &'a [Token]) -> Result<Parsed<'a>, NoMemory>
    ensures { IfOk result (λ tree. parsed tree ≡ Some (Case (branches_of branches), rest.now)) }
{
    Ok(Some((branches.ended()?, rest)))
}

/// A tree that is LIKE the pattern which comes first.
pub fn liked<'a>(
    alloc: Global,
    negated: bool,
    tree: RawExpr,
    tokens: &'a [Token],
) -> Result<Parsed<'a>, NoMemory>
    ensures { IfOk result (λ found. parsed found ≡ liked negated (tree_of tree) tokens.now) }
{
    match tokens.split_first() {
        Some((Token::Text(text), rest)) => {
            let like = RawNode::Like(negated, text.copy(alloc)?);
            Ok(Some((RawExpr::unary(like, tree)?, rest)))
        }
        _ => Ok(None),
    }
}

/// A bare name alone, and the byte of the text that it begins at.
pub fn bare_name<'a>(
    alloc: Global,
    name: &Bytes,
    place: usize,
    rest: &'a [Token],
) -> Result<Parsed<'a>, NoMemory>
    ensures { IfOk result (λ found. parsed found ≡ Some (Name name.now place, rest.now)) }
{
    let node = RawNode::Name(name.copy(alloc)?, place);
    Ok(Some((RawExpr::leaf(alloc, node)?, rest)))
}

/// One token that is an expression alone.
pub fn leaf<'a>(alloc: Global, token: &Token, rest: &'a [Token]) -> Result<Parsed<'a>, NoMemory>
    ensures { IfOk result (λ found. parsed found ≡ leaf token.now rest.now) }
{
    let node = match token {
        Token::Number(number) => RawNode::Number(number.copy(alloc)?),
        Token::Text(text) => RawNode::Text(text.copy(alloc)?),
        Token::Column(name) => RawNode::Column(name.copy(alloc)?),
        Token::Field(name) => RawNode::Field(name.copy(alloc)?),
        Token::FieldOf(view, name) => RawNode::FieldOf(view.copy(alloc)?, name.copy(alloc)?),
        Token::Word(Keyword::True) => RawNode::Truth(true),
        Token::Word(Keyword::False) => RawNode::Truth(false),
        Token::Word(Keyword::Null) => RawNode::Null,
        _ => return Ok(None),
    };
    Ok(Some((RawExpr::leaf(alloc, node)?, rest)))
}
