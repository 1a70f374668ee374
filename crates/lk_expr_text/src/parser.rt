ghost use Rattle.std.specs.Prelude.{◌≡◌, IfOk, option_map};
ghost use Rattle.lk_expr_tree.specs.RawCode.{tree_of};
ghost use Rattle.lk_expr_tree.specs.ParsedCode.{parsed, parsed_args, parsed_branch, parsed_branches};
ghost use Rattle.lk_expr_text.specs.Parsing.{after_comma, after_not, after_when, args_in, atom_in, behind_first, below, bounded, branch_in, branches_in, case_end, chain_in, choice_in, item_in, joint_of, named, next_joint, not_in, operand_in, sum_in, test_of, tested, unary_in};
ghost use Rattle.lk_expr_text.specs.declared.parser.Nest.TheVariants as nest;

use lk_expr_token::{Keyword, Sign, Token};
use lk_expr_tree::{
    Joint, Parsed, ParsedArgs, ParsedBranch, ParsedBranches, RawExpr, bare_name, called, compared,
    denied, ended, ended_else, first_arg, first_branch, grouped, joined, leaf, liked, listed,
    next_arg, next_branch, null_test, upto, valued, with_sign,
};
use lk_val::{Bytes, NoMemory};
use std::alloc::Global;

// What a chain joins: a chain of ORs joins chains of ANDs, and a sum joins products.
#[derive(Clone, Copy)]
pub(crate) enum Precedence {
    Or,
    And,
    Sum,
    Term,
}

// What stands one level deeper: an expression in brackets, what NOT denies, or what a sign stands before.
#[derive(Clone, Copy)]
pub(crate) enum Nest {
    Whole,
    Negation,
    Sign,
}

// What a list's items are: whole expressions of a call, and sums behind IN.
#[derive(Clone, Copy)]
pub(crate) enum Item {
    Whole,
    Sum,
}

// What stands one level deeper; none where no level is left.
#[cycle(parse)]
#[tactic(auto, using(crate::proofs::ParseSteps::below_more, crate::proofs::ParseSteps::below_none))]
fn parse_below<'a>(
    alloc: Global,
    left: u8,
    nest: Nest,
    tokens: &'a [Token],
) -> Result<Parsed<'a>, NoMemory>
    ensures { IfOk result (λ found. parsed found ≡ below left nest tokens.now) }
{
    if left == 0 {
        return Ok(None);
    }
    match nest {
        Nest::Whole => parse_chain(alloc, left - 1, Precedence::Or, tokens),
        Nest::Negation => parse_not(alloc, left - 1, tokens),
        Nest::Sign => parse_unary(alloc, left - 1, tokens),
    }
}

#[cycle(parse)]
fn parse_operand<'a>(
    alloc: Global,
    left: u8,
    precedence: Precedence,
    tokens: &'a [Token],
) -> Result<Parsed<'a>, NoMemory>
    ensures { IfOk result (λ found. parsed found ≡ operand_in (below left) precedence tokens.now) }
{
    match precedence {
        Precedence::Or => parse_chain(alloc, left, Precedence::And, tokens),
        Precedence::And => parse_not(alloc, left, tokens),
        Precedence::Sum => parse_chain(alloc, left, Precedence::Term, tokens),
        Precedence::Term => parse_unary(alloc, left, tokens),
    }
}

// A chain, joined from the left.
#[cycle(parse)]
pub(crate) fn parse_chain<'a>(
    alloc: Global,
    left: u8,
    precedence: Precedence,
    tokens: &'a [Token],
) -> Result<Parsed<'a>, NoMemory>
    ensures { IfOk result (λ found. parsed found ≡ chain_in precedence (operand_in (below left) precedence) tokens.now) }
{
    let mut found = parse_operand(alloc, left, precedence, tokens)?;
    for _used in tokens {
        let Some((tree, rest)) = found else {
            return Ok(None);
        };
        let Some(joint) = next_joint(precedence, rest) else {
            return Ok(Some((tree, rest)));
        };
        let operand = parse_operand(alloc, left, precedence, behind_first(rest))?;
        found = joined(joint, tree, operand)?;
    }
    Ok(None)
}

fn behind_first(tokens: &[Token]) -> &[Token]
    ensures { result.now ≡ behind_first tokens.now }
{
    match tokens.split_first() {
        Some((_, behind)) => behind,
        None => tokens,
    }
}

fn next_joint(precedence: Precedence, tokens: &[Token]) -> Option<Joint>
    ensures { result ≡ next_joint precedence tokens.now }
{
    match tokens.split_first() {
        Some((token, _)) => joint_of(precedence, token),
        None => None,
    }
}

fn joint_of(precedence: Precedence, token: &Token) -> Option<Joint>
    ensures { result ≡ joint_of precedence token.now }
{
    match (precedence, token) {
        (Precedence::Or, Token::Word(Keyword::Or)) => Some(Joint::Or),
        (Precedence::And, Token::Word(Keyword::And)) => Some(Joint::And),
        (Precedence::Sum, Token::Sign(Sign::Plus)) => Some(Joint::Plus),
        (Precedence::Sum, Token::Sign(Sign::Minus)) => Some(Joint::Minus),
        (Precedence::Sum, Token::Sign(Sign::Concat)) => Some(Joint::Concat),
        (Precedence::Term, Token::Sign(Sign::Times)) => Some(Joint::Times),
        (Precedence::Term, Token::Sign(Sign::Over)) => Some(Joint::Over),
        _ => None,
    }
}

#[cycle(parse)]
fn parse_not<'a>(alloc: Global, left: u8, tokens: &'a [Token]) -> Result<Parsed<'a>, NoMemory>
    ensures { IfOk result (λ found. parsed found ≡ not_in (below left) tokens.now) }
{
    match after_not(tokens) {
        Some(behind) => denied(parse_below(alloc, left, Nest::Negation, behind)?),
        None => {
            let found = parse_chain(alloc, left, Precedence::Sum, tokens)?;
            parse_tested(alloc, left, found)
        }
    }
}

fn after_not(tokens: &[Token]) -> Option<&[Token]>
    ensures { option_map (λ rest. rest.now) result ≡ after_not tokens.now }
{
    match tokens.split_first() {
        Some((Token::Word(Keyword::Not), rest)) => Some(rest),
        _ => None,
    }
}

#[cycle(parse)]
fn parse_tested<'a>(alloc: Global, left: u8, found: Parsed<'a>) -> Result<Parsed<'a>, NoMemory>
    ensures { IfOk result (λ test. parsed test ≡ tested (sum_in (below left)) (parsed found.entry)) }
{
    match found {
        None => Ok(None),
        Some((tree, rest)) => parse_test(alloc, left, tree, rest),
    }
}

// What tests an expression, if something does.
#[cycle(parse)]
fn parse_test<'a>(
    alloc: Global,
    left: u8,
    tree: RawExpr,
    tokens: &'a [Token],
) -> Result<Parsed<'a>, NoMemory>
    ensures { IfOk result (λ found. parsed found ≡ test_of (sum_in (below left)) (tree_of tree) tokens.now) }
{
    match tokens.split_first() {
        Some((Token::Compare(comparison), behind)) => {
            let other = parse_chain(alloc, left, Precedence::Sum, behind)?;
            compared(*comparison, tree, other)
        }
        Some((Token::Word(Keyword::Is), behind)) => null_test(tree, behind),
        Some((Token::Word(Keyword::Not), behind)) => {
            parse_choice(alloc, left, true, tree, behind)
        }
        Some((Token::Word(Keyword::In), _)) => parse_choice(alloc, left, false, tree, tokens),
        Some((Token::Word(Keyword::Between), _)) => {
            parse_choice(alloc, left, false, tree, tokens)
        }
        Some((Token::Word(Keyword::Like), _)) => parse_choice(alloc, left, false, tree, tokens),
        _ => Ok(Some((tree, tokens))),
    }
}

// IN, BETWEEN or LIKE behind an expression.
#[cycle(parse)]
fn parse_choice<'a>(
    alloc: Global,
    left: u8,
    negated: bool,
    tree: RawExpr,
    tokens: &'a [Token],
) -> Result<Parsed<'a>, NoMemory>
    ensures { IfOk result (λ found. parsed found ≡ choice_in (sum_in (below left)) negated (tree_of tree) tokens.now) }
{
    match tokens.split_first() {
        Some((Token::Word(Keyword::In), behind)) => match behind.split_first() {
            Some((Token::Sign(Sign::Open), inside)) => {
                let args = parse_args(alloc, left, Item::Sum, inside)?;
                listed(negated, tree, args)
            }
            _ => Ok(None),
        },
        Some((Token::Word(Keyword::Between), behind)) => {
            let low = parse_chain(alloc, left, Precedence::Sum, behind)?;
            parse_bounds(alloc, left, negated, tree, low)
        }
        Some((Token::Word(Keyword::Like), behind)) => liked(alloc, negated, tree, behind),
        _ => Ok(None),
    }
}

#[cycle(parse)]
fn parse_bounds<'a>(
    alloc: Global,
    left: u8,
    negated: bool,
    tree: RawExpr,
    found: Parsed<'a>,
) -> Result<Parsed<'a>, NoMemory>
    ensures { IfOk result (λ bounds. parsed bounds ≡ bounded (sum_in (below left)) negated (tree_of tree) (parsed found.entry)) }
{
    let Some((low, behind)) = found else {
        return Ok(None);
    };
    match behind.split_first() {
        Some((Token::Word(Keyword::And), upper)) => {
            let high = parse_chain(alloc, left, Precedence::Sum, upper)?;
            upto(negated, tree, low, high)
        }
        _ => Ok(None),
    }
}

#[cycle(parse)]
fn parse_item<'a>(
    alloc: Global,
    left: u8,
    item: Item,
    tokens: &'a [Token],
) -> Result<Parsed<'a>, NoMemory>
    ensures { IfOk result (λ found. parsed found ≡ item_in (below left) item tokens.now) }
{
    match item {
        Item::Whole => parse_below(alloc, left, Nest::Whole, tokens),
        Item::Sum => parse_chain(alloc, left, Precedence::Sum, tokens),
    }
}

// One or more expressions with commas between them.
#[cycle(parse)]
fn parse_args<'a>(
    alloc: Global,
    left: u8,
    item: Item,
    tokens: &'a [Token],
) -> Result<ParsedArgs<'a>, NoMemory>
    ensures { IfOk result (λ found. parsed_args found ≡ args_in (item_in (below left) item) tokens.now) }
{
    let first = parse_item(alloc, left, item, tokens)?;
    let mut found = first_arg(first);
    for _used in tokens {
        let Some((args, rest)) = found else {
            return Ok(None);
        };
        let Some(behind) = after_comma(rest) else {
            return Ok(Some((args, rest)));
        };
        let next = parse_item(alloc, left, item, behind)?;
        found = next_arg(args, next)?;
    }
    Ok(None)
}

fn after_comma(tokens: &[Token]) -> Option<&[Token]>
    ensures { option_map (λ rest. rest.now) result ≡ after_comma tokens.now }
{
    match tokens.split_first() {
        Some((Token::Sign(Sign::Comma), rest)) => Some(rest),
        _ => None,
    }
}

fn after_when(tokens: &[Token]) -> Option<&[Token]>
    ensures { option_map (λ rest. rest.now) result ≡ after_when tokens.now }
{
    match tokens.split_first() {
        Some((Token::Word(Keyword::When), rest)) => Some(rest),
        _ => None,
    }
}

// A condition and its value, behind WHEN.
#[cycle(parse)]
fn parse_branch<'a>(
    alloc: Global,
    left: u8,
    tokens: &'a [Token],
) -> Result<ParsedBranch<'a>, NoMemory>
    ensures { IfOk result (λ found. parsed_branch found ≡ branch_in (below left nest.Whole) tokens.now) }
{
    let Some((condition, behind)) = parse_below(alloc, left, Nest::Whole, tokens)? else {
        return Ok(None);
    };
    match behind.split_first() {
        Some((Token::Word(Keyword::Then), behind)) => {
            let value = parse_below(alloc, left, Nest::Whole, behind)?;
            Ok(valued(condition, value))
        }
        _ => Ok(None),
    }
}

// One or more branches.
#[cycle(parse)]
fn parse_branches<'a>(
    alloc: Global,
    left: u8,
    tokens: &'a [Token],
) -> Result<ParsedBranches<'a>, NoMemory>
    ensures { IfOk result (λ found. parsed_branches found ≡ branches_in (below left nest.Whole) tokens.now) }
{
    let Some(inside) = after_when(tokens) else {
        return Ok(None);
    };
    let first = parse_branch(alloc, left, inside)?;
    let mut found = first_branch(first)?;
    for _used in inside {
        let Some((branches, rest)) = found else {
            return Ok(None);
        };
        let Some(behind) = after_when(rest) else {
            return Ok(Some((branches, rest)));
        };
        let next = parse_branch(alloc, left, behind)?;
        found = next_branch(branches, next)?;
    }
    Ok(None)
}

// A CASE from its branches on, with ELSE or without.
#[cycle(parse)]
fn parse_case<'a>(alloc: Global, left: u8, tokens: &'a [Token]) -> Result<Parsed<'a>, NoMemory>
    ensures { IfOk result (λ found. parsed found ≡ case_end (below left nest.Whole) (branches_in (below left nest.Whole) tokens.now)) }
{
    let Some((branches, behind)) = parse_branches(alloc, left, tokens)? else {
        return Ok(None);
    };
    match behind.split_first() {
        Some((Token::Word(Keyword::End), rest)) => ended(branches, rest),
        Some((Token::Word(Keyword::Else), behind)) => {
            let other = parse_below(alloc, left, Nest::Whole, behind)?;
            ended_else(branches, other)
        }
        _ => Ok(None),
    }
}

#[cycle(parse)]
fn parse_unary<'a>(alloc: Global, left: u8, tokens: &'a [Token]) -> Result<Parsed<'a>, NoMemory>
    ensures { IfOk result (λ found. parsed found ≡ unary_in (below left) tokens.now) }
{
    match tokens.split_first() {
        Some((Token::Sign(Sign::Minus), behind)) => {
            with_sign(parse_below(alloc, left, Nest::Sign, behind)?)
        }
        _ => parse_atom(alloc, left, tokens),
    }
}

// What nothing joins.
#[cycle(parse)]
fn parse_atom<'a>(alloc: Global, left: u8, tokens: &'a [Token]) -> Result<Parsed<'a>, NoMemory>
    ensures { IfOk result (λ found. parsed found ≡ atom_in (below left nest.Whole) tokens.now) }
{
    match tokens.split_first() {
        Some((Token::Name(name, place), rest)) => parse_named(alloc, left, name, *place, rest),
        Some((Token::Word(Keyword::Case), rest)) => parse_case(alloc, left, rest),
        Some((Token::Sign(Sign::Open), rest)) => {
            grouped(parse_below(alloc, left, Nest::Whole, rest)?)
        }
        Some((first, rest)) => leaf(alloc, first, rest),
        None => Ok(None),
    }
}

// A column's name, or a call where a bracket follows.
#[cycle(parse)]
fn parse_named<'a>(
    alloc: Global,
    left: u8,
    name: &Bytes,
    place: usize,
    tokens: &'a [Token],
) -> Result<Parsed<'a>, NoMemory>
    ensures { IfOk result (λ found. parsed found ≡ named (below left nest.Whole) name.now place tokens.now) }
{
    match tokens.split_first() {
        Some((Token::Sign(Sign::Open), inside)) => {
            let args = parse_args(alloc, left, Item::Whole, inside)?;
            called(alloc, name, place, args)
        }
        _ => bare_name(alloc, name, place, tokens),
    }
}
