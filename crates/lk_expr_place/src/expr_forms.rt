ghost use Rattle.std.specs.Prelude.{◌≡◌, IfOk};
ghost use Rattle.lk_expr_place.specs.GrammarForms.{and_form, atom_form, between_form, branch_form, branches_form, case_form, choice_form, compared_form, else_form, expr_form, expr_rules, in_form, like_form, named_form, not_form, null_form, optional_not, sum_form, tail_form, term_form, test_form, unary_form};

use crate::form_parts::{bracketed, chained, listed, one_of, terminal_form, with_minus, word};
use lk_expr_token::{Keyword, Sign, Terminal};
use lk_grammar::Form;
use lk_val::NoMemory;
use std::alloc::Global;

/// The rules of expressions: a whole one, what NOT denies, and what a minus negates.
#[tactic(auto, unfolding(crate::specs::GrammarForms::expr_rules))]
pub(crate) fn expr_rules(alloc: Global) -> Result<Vec<Form>, NoMemory>
    ensures { IfOk result (λ rules. rules.items ≡ expr_rules) }
{
    Ok(vec![in alloc; expr_form(alloc)?, not_form(alloc)?, unary_form(alloc)?]?)
}

/// An expression.
#[tactic(auto, unfolding(crate::specs::GrammarForms::expr_form))]
pub(crate) fn expr_form(alloc: Global) -> Result<Form, NoMemory>
    ensures { IfOk result (λ form. form ≡ expr_form) }
{
    chained(alloc, &[Terminal::Word(Keyword::Or)], and_form(alloc))
}

#[tactic(auto, unfolding(crate::specs::GrammarForms::and_form))]
fn and_form(alloc: Global) -> Result<Form, NoMemory>
    ensures { IfOk result (λ form. form ≡ and_form) }
{
    chained(alloc, &[Terminal::Word(Keyword::And)], not_form(alloc))
}

#[tactic(auto, unfolding(crate::specs::GrammarForms::not_form))]
fn not_form(alloc: Global) -> Result<Form, NoMemory>
    ensures { IfOk result (λ form. form ≡ not_form) }
{
    let denied = Form::seq(alloc, Ok(word(Keyword::Not)), Ok(Form::nested(1)));
    Form::either(alloc, denied, test_form(alloc))
}

#[tactic(auto, unfolding(crate::specs::GrammarForms::test_form))]
fn test_form(alloc: Global) -> Result<Form, NoMemory>
    ensures { IfOk result (λ form. form ≡ test_form) }
{
    let sum = sum_form(alloc)?;
    let tail = tail_form(alloc, &sum);
    Form::seq(alloc, Ok(sum), Form::optional(alloc, tail))
}

#[tactic(auto, unfolding(crate::specs::GrammarForms::tail_form))]
fn tail_form(alloc: Global, sum: &Form) -> Result<Form, NoMemory>
    requires { sum.now ≡ sum_form }
    ensures { IfOk result (λ form. form ≡ tail_form) }
{
    let compared = Form::seq(alloc, Ok(terminal_form(Terminal::Compare)), sum.share());
    let others = Form::either(alloc, null_form(alloc), choice_form(alloc, sum));
    Form::either(alloc, compared, others)
}

fn null_form(alloc: Global) -> Result<Form, NoMemory>
    ensures { IfOk result (λ form. form ≡ null_form) }
{
    let null = Form::seq(alloc, optional_not(alloc), Ok(word(Keyword::Null)));
    Form::seq(alloc, Ok(word(Keyword::Is)), null)
}

fn optional_not(alloc: Global) -> Result<Form, NoMemory>
    ensures { IfOk result (λ form. form ≡ optional_not) }
{
    Form::optional(alloc, Ok(word(Keyword::Not)))
}

fn choice_form(alloc: Global, sum: &Form) -> Result<Form, NoMemory>
    requires { sum.now ≡ sum_form }
    ensures { IfOk result (λ form. form ≡ choice_form) }
{
    let like = Form::seq(
        alloc,
        Ok(word(Keyword::Like)),
        Ok(terminal_form(Terminal::Text)),
    );
    let others = Form::either(alloc, between_form(alloc, sum), like);
    let choice = Form::either(alloc, in_form(alloc, sum), others);
    Form::seq(alloc, optional_not(alloc), choice)
}

fn in_form(alloc: Global, sum: &Form) -> Result<Form, NoMemory>
    requires { sum.now ≡ sum_form }
    ensures { IfOk result (λ form. form ≡ in_form) }
{
    let items = bracketed(alloc, listed(alloc, sum.share()));
    Form::seq(alloc, Ok(word(Keyword::In)), items)
}

fn between_form(alloc: Global, sum: &Form) -> Result<Form, NoMemory>
    requires { sum.now ≡ sum_form }
    ensures { IfOk result (λ form. form ≡ between_form) }
{
    let high = Form::seq(alloc, Ok(word(Keyword::And)), sum.share());
    let bounds = Form::seq(alloc, sum.share(), high);
    Form::seq(alloc, Ok(word(Keyword::Between)), bounds)
}

#[tactic(auto, unfolding(crate::specs::GrammarForms::sum_form))]
fn sum_form(alloc: Global) -> Result<Form, NoMemory>
    ensures { IfOk result (λ form. form ≡ sum_form) }
{
    let signs = [
        Terminal::Sign(Sign::Plus),
        Terminal::Sign(Sign::Minus),
        Terminal::Sign(Sign::Concat),
    ];
    chained(alloc, &signs, term_form(alloc))
}

#[tactic(auto, unfolding(crate::specs::GrammarForms::term_form))]
fn term_form(alloc: Global) -> Result<Form, NoMemory>
    ensures { IfOk result (λ form. form ≡ term_form) }
{
    let signs = [Terminal::Sign(Sign::Times), Terminal::Sign(Sign::Over)];
    chained(alloc, &signs, unary_form(alloc))
}

#[tactic(auto, unfolding(crate::specs::GrammarForms::unary_form))]
fn unary_form(alloc: Global) -> Result<Form, NoMemory>
    ensures { IfOk result (λ form. form ≡ unary_form) }
{
    with_minus(alloc, 2, atom_form(alloc))
}

#[tactic(auto, unfolding(crate::specs::GrammarForms::atom_form))]
fn atom_form(alloc: Global) -> Result<Form, NoMemory>
    ensures { IfOk result (λ form. form ≡ atom_form) }
{
    let literals = [
        Terminal::Number,
        Terminal::Text,
        Terminal::Word(Keyword::True),
        Terminal::Word(Keyword::False),
        Terminal::Word(Keyword::Null),
        Terminal::Column,
        Terminal::Field,
        Terminal::FieldOf,
    ];
    let literal = one_of(alloc, &literals);
    let group = bracketed(alloc, Ok(Form::nested(0)));
    let compound = Form::either(alloc, group, case_form(alloc));
    let others = Form::either(alloc, named_form(alloc), compound);
    Form::either(alloc, literal, others)
}

#[tactic(auto, unfolding(crate::specs::GrammarForms::named_form))]
fn named_form(alloc: Global) -> Result<Form, NoMemory>
    ensures { IfOk result (λ form. form ≡ named_form) }
{
    let name = one_of(alloc, &[Terminal::Name, Terminal::MeasureFunction]);
    let arguments = bracketed(alloc, listed(alloc, Ok(Form::nested(0))));
    Form::seq(alloc, name, Form::optional(alloc, arguments))
}

#[tactic(auto, unfolding(crate::specs::GrammarForms::case_form))]
fn case_form(alloc: Global) -> Result<Form, NoMemory>
    ensures { IfOk result (λ form. form ≡ case_form) }
{
    let otherwise = Form::optional(alloc, else_form(alloc));
    let end = Form::seq(alloc, otherwise, Ok(word(Keyword::End)));
    let rest = Form::seq(alloc, branches_form(alloc), end);
    Form::seq(alloc, Ok(word(Keyword::Case)), rest)
}

fn else_form(alloc: Global) -> Result<Form, NoMemory>
    ensures { IfOk result (λ form. form ≡ else_form) }
{
    Form::seq(alloc, Ok(word(Keyword::Else)), Ok(Form::nested(0)))
}

fn branches_form(alloc: Global) -> Result<Form, NoMemory>
    ensures { IfOk result (λ form. form ≡ branches_form) }
{
    let branch = branch_form(alloc)?;
    let more = Form::many(alloc, branch.share());
    Form::seq(alloc, Ok(branch), more)
}

fn branch_form(alloc: Global) -> Result<Form, NoMemory>
    ensures { IfOk result (λ form. form ≡ branch_form) }
{
    let value = Form::seq(alloc, Ok(word(Keyword::Then)), Ok(Form::nested(0)));
    let condition = Form::seq(alloc, Ok(Form::nested(0)), value);
    Form::seq(alloc, Ok(word(Keyword::When)), condition)
}
