ghost use Rattle.std.specs.Prelude.{◌≡◌, ◌++◌, List, Some, IfOk, IfSome, option_map};
ghost use Rattle.lk_grammar.specs.Forms.{IsText};
ghost use Rattle.lk_grammar.specs.Places.{Judges};
ghost use Rattle.lk_filter_number.specs.Truths.{IsTruthFilter, IsTruth, truth_filter};
ghost use Rattle.lk_filter_number.specs.TruthReading.{truth_of, truths_of, value_form, further_form, truth_form};
ghost use Rattle.lk_types.specs.declared.filter.Filter.{Filter};

use lk_grammar::{Form, Word, judge, listed, read_words};
use lk_types::{Filter, Test};
use lk_val::{Items, NoMemory};
use std::alloc::Global;

/// The words of filters of truth values.
#[derive(Clone, Copy)]
pub(crate) enum TruthWord {
    Yes,
    No,
    Comma,
}

impl Word for TruthWord {
    ghost use Rattle.lk_filter_number.specs.Truths.{letters_of};

    ghost letters_of = { letters_of };

    fn letters(&self) -> &'static [u8] {
        match self {
            TruthWord::Yes => b"yes",
            TruthWord::No => b"no",
            TruthWord::Comma => b",",
        }
    }
}

/// The filter that a text spells as one of truth values, and none where it spells none.
pub fn read_truths(alloc: Global, text: &[u8]) -> Result<Option<Filter>, NoMemory>
    ensures spelled { IfOk result (λ found. IfSome found (λ f. IsTruthFilter f text.now)) }
    ensures every { IfOk result (λ found. (f : Filter) → IsTruthFilter f text.now → found ≡ Some f) }
{
    let table = [TruthWord::Yes, TruthWord::No, TruthWord::Comma];
    let Some(words) = read_words(alloc, b" ", &table, text)? else {
        return Ok(None);
    };
    read_tests(alloc, words.as_slice())
}

fn read_tests(alloc: Global, words: &[TruthWord]) -> Result<Option<Filter>, NoMemory>
    ensures { IfOk result (λ found. found ≡ option_map truth_filter (truths_of words.now)) }
{
    let mut include = Items::new(alloc);
    let mut rest = words;
    while let Some((word, behind)) = rest.split_first() {
        let Some(value) = truth_of(*word) else {
            return Ok(None);
        };
        include.push(Test::Truth(value))?;
        match behind.split_first() {
            Some((TruthWord::Comma, others)) if !others.is_empty() => rest = others,
            Some(_) => return Ok(None),
            None => rest = behind,
        }
    }
    Ok(Some(Filter {
        include,
        exclude: Items::new(alloc),
        relative: false,
    }))
}

fn truth_of(word: TruthWord) -> Option<bool>
    ensures { result ≡ truth_of word }
{
    match word {
        TruthWord::Yes => Some(true),
        TruthWord::No => Some(false),
        TruthWord::Comma => None,
    }
}

/// The place of a text as a filter of truth values, and none where it is one.
pub fn judge_truths(alloc: Global, text: &[u8]) -> Result<Option<usize>, NoMemory>
    ensures { IfOk result (Judges IsTruth text.now) }
{
    judge_truth_form(alloc, text)
}

#[tactic(auto, unfolding(crate::specs::TruthReading::truth_form))]
fn judge_truth_form(alloc: Global, text: &[u8]) -> Result<Option<usize>, NoMemory>
    ensures { IfOk result (Judges (IsText truth_form) text.now) }
{
    judge(alloc, &truth_form(alloc)?, text)
}

#[tactic(auto, unfolding(crate::specs::TruthReading::truth_form))]
fn truth_form(alloc: Global) -> Result<Form, NoMemory>
    ensures { IfOk result (λ form. form ≡ truth_form) }
{
    let item = value_form(alloc);
    let further = Form::seq(alloc, Form::word(alloc, b" ", b","), value_form(alloc));
    listed(alloc, b" ", item, further)
}

fn value_form(alloc: Global) -> Result<Form, NoMemory>
    ensures { IfOk result (λ form. form ≡ value_form) }
{
    Form::either(
        alloc,
        Form::word(alloc, b" ", b"yes"),
        Form::word(alloc, b" ", b"no"),
    )
}
