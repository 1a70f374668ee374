ghost use Rattle.std.specs.Prelude.{◌≡◌, IfOk};
ghost use Rattle.lk_grammar.specs.Reaching.{HasReached};
ghost use Rattle.lk_expr_place.specs.TerminalGrammar.{grammar_form, grammar_rules};

use crate::expr_forms::{expr_form, expr_rules};
use crate::measure_forms::{measure_form, measure_rules};
use lk_grammar::{Form, Reached};
use lk_val::NoMemory;
use std::alloc::Global;

/// The grammar of expressions, or the smaller one of measures of type number.
#[derive(Clone, Copy, PartialEq, Eq)]
pub enum Grammar {
    Expressions,
    Measures,
}

/// A grammar with its form and its rules: what judges lists of terminals, each given as its byte.
#[derive(Drop)]
pub struct Judge {
    pub(crate) grammar: Grammar,
    form: Form,
    rules: Vec<Form>,
    ghost form_is: { form ≡ grammar_form grammar },
    ghost rules_are: { rules.items ≡ grammar_rules grammar },
}

impl Judge {
    /// The judge of a grammar.
    pub fn of(alloc: Global, grammar: Grammar) -> Result<Judge, NoMemory>
        ensures { IfOk result (λ judge. judge.grammar ≡ grammar) }
    {
        Ok(Judge {
            grammar,
            form: grammar_form(alloc, grammar)?,
            rules: grammar_rules(alloc, grammar)?,
        })
    }

    /// Goes over a list of terminals as far as it goes on to those of some tree of the grammar.
    pub fn reach<'a>(&'a self, alloc: Global, terminals: &[u8]) -> Result<Reached<'a>, NoMemory>
        ensures { IfOk result (HasReached (grammar_rules self.now.grammar) 100 (grammar_form self.now.grammar) terminals.now) }
    {
        Reached::of(alloc, self.rules.as_slice(), 100, &self.form, terminals)
    }
}

fn grammar_form(alloc: Global, grammar: Grammar) -> Result<Form, NoMemory>
    ensures { IfOk result (λ form. form ≡ grammar_form grammar) }
{
    match grammar {
        Grammar::Expressions => expr_form(alloc),
        Grammar::Measures => measure_form(alloc),
    }
}

fn grammar_rules(alloc: Global, grammar: Grammar) -> Result<Vec<Form>, NoMemory>
    ensures { IfOk result (λ rules. rules.items ≡ grammar_rules grammar) }
{
    match grammar {
        Grammar::Expressions => expr_rules(alloc),
        Grammar::Measures => measure_rules(alloc),
    }
}
