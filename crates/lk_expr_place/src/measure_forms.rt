ghost use Rattle.std.specs.Prelude.{◌≡◌, IfOk};
ghost use Rattle.lk_expr_place.specs.GrammarForms.{measure_atom, measure_call, measure_form, measure_rules, measure_term, measure_unary};

use crate::form_parts::{bracketed, chained, listed, one_of, terminal_form, with_minus};
use lk_expr_token::{Sign, Terminal};
use lk_grammar::Form;
use lk_val::NoMemory;
use std::alloc::Global;

/// The rules of measures, of which the first is a whole one and the second what a minus negates.
#[tactic(auto, unfolding(crate::specs::GrammarForms::measure_rules))]
pub(crate) fn measure_rules(alloc: Global) -> Result<Vec<Form>, NoMemory>
    ensures { IfOk result (λ rules. rules.items ≡ measure_rules) }
{
    Ok(vec![in alloc; measure_form(alloc)?, measure_unary(alloc)?]?)
}

/// A measure.
#[tactic(auto, unfolding(crate::specs::GrammarForms::measure_form))]
pub(crate) fn measure_form(alloc: Global) -> Result<Form, NoMemory>
    ensures { IfOk result (λ form. form ≡ measure_form) }
{
    let signs = [Terminal::Sign(Sign::Plus), Terminal::Sign(Sign::Minus)];
    chained(alloc, &signs, measure_term(alloc))
}

#[tactic(auto, unfolding(crate::specs::GrammarForms::measure_term))]
fn measure_term(alloc: Global) -> Result<Form, NoMemory>
    ensures { IfOk result (λ form. form ≡ measure_term) }
{
    let signs = [Terminal::Sign(Sign::Times), Terminal::Sign(Sign::Over)];
    chained(alloc, &signs, measure_unary(alloc))
}

#[tactic(auto, unfolding(crate::specs::GrammarForms::measure_unary))]
fn measure_unary(alloc: Global) -> Result<Form, NoMemory>
    ensures { IfOk result (λ form. form ≡ measure_unary) }
{
    with_minus(alloc, 1, measure_atom(alloc))
}

#[tactic(auto, unfolding(crate::specs::GrammarForms::measure_atom))]
fn measure_atom(alloc: Global) -> Result<Form, NoMemory>
    ensures { IfOk result (λ form. form ≡ measure_atom) }
{
    let literals = [Terminal::Number, Terminal::Field, Terminal::FieldOf];
    let literal = one_of(alloc, &literals);
    let group = bracketed(alloc, Ok(Form::nested(0)));
    let compound = Form::either(alloc, group, measure_call(alloc));
    Form::either(alloc, literal, compound)
}

fn measure_call(alloc: Global) -> Result<Form, NoMemory>
    ensures { IfOk result (λ form. form ≡ measure_call) }
{
    let arguments = bracketed(alloc, listed(alloc, Ok(Form::nested(0))));
    Form::seq(
        alloc,
        Ok(terminal_form(Terminal::MeasureFunction)),
        arguments,
    )
}
