ghost use Rattle.std.specs.Prelude.{◌≡◌, IfOk};
ghost use Rattle.lk_grammar.specs.Forms.{IsText};
ghost use Rattle.lk_grammar.specs.Places.{Judges};
ghost use Rattle.lk_types.specs.declared.filter.Period.TheVariants.{Day, Week, Month, Quarter, Year};
ghost use Rattle.lk_filter_date.specs.Dates.{IsDates, unit_letters};
ghost use Rattle.lk_filter_date.specs.DateReading.{written_date, written_count, unit_form, units_form, period_form, dated_form, counted_form, beside_form, current_form, null_form, item_form, further_form, dates_form};

use crate::forms::{count_form, date_form};
use crate::words::{Plurality, unit_letters};
use lk_grammar::{Form, judge, listed};
use lk_types::Period;
use lk_val::NoMemory;
use std::alloc::Global;

/// The place of a text as a filter of dates, and none where it is one.
pub fn judge_dates(alloc: Global, text: &[u8]) -> Result<Option<usize>, NoMemory>
    ensures { IfOk result (Judges IsDates text.now) }
{
    judge_dates_form(alloc, text)
}

#[tactic(auto, unfolding(crate::specs::DateReading::dates_form), using(crate::proofs::DateFormLaws::date_form_lives))]
fn judge_dates_form(alloc: Global, text: &[u8]) -> Result<Option<usize>, NoMemory>
    ensures { IfOk result (Judges (IsText dates_form) text.now) }
{
    judge(alloc, &dates_form(alloc)?, text)
}

#[tactic(auto, unfolding(crate::specs::DateReading::dates_form))]
fn dates_form(alloc: Global) -> Result<Form, NoMemory>
    ensures { IfOk result (λ form. form ≡ dates_form) }
{
    let date = written_date(alloc)?;
    let item = item_form(alloc, &date)?;
    let further = Form::seq(alloc, Form::word(alloc, b" ", b","), item.share());
    listed(alloc, b" ", Ok(item), further)
}

fn item_form(alloc: Global, date: &Form) -> Result<Form, NoMemory>
    requires { date.now ≡ written_date }
    ensures { IfOk result (λ form. form ≡ item_form) }
{
    let others = Form::either(
        alloc,
        Form::word(alloc, b" ", b"yesterday"),
        null_form(alloc),
    );
    let others = Form::either(alloc, Form::word(alloc, b" ", b"today"), others);
    let others = Form::either(alloc, current_form(alloc), others);
    let others = Form::either(alloc, beside_form(alloc, date), others);
    let others = Form::either(alloc, counted_form(alloc), others);
    Form::either(alloc, dated_form(alloc, date), others)
}

fn dated_form(alloc: Global, date: &Form) -> Result<Form, NoMemory>
    requires { date.now ≡ written_date }
    ensures { IfOk result (λ form. form ≡ dated_form) }
{
    let to = Form::seq(alloc, Form::word(alloc, b" ", b"to"), date.share());
    Form::seq(alloc, date.share(), Form::optional(alloc, to))
}

fn counted_form(alloc: Global) -> Result<Form, NoMemory>
    ensures { IfOk result (λ form. form ≡ counted_form) }
{
    let ago = Form::optional(alloc, Form::word(alloc, b" ", b"ago"));
    let unit = Form::seq(alloc, units_form(alloc), ago);
    Form::seq(alloc, written_count(alloc), unit)
}

fn beside_form(alloc: Global, date: &Form) -> Result<Form, NoMemory>
    requires { date.now ≡ written_date }
    ensures { IfOk result (λ form. form ≡ beside_form) }
{
    let side = Form::either(
        alloc,
        Form::word(alloc, b" ", b"before"),
        Form::word(alloc, b" ", b"after"),
    );
    Form::seq(alloc, side, date.share())
}

fn current_form(alloc: Global) -> Result<Form, NoMemory>
    ensures { IfOk result (λ form. form ≡ current_form) }
{
    let which = Form::either(
        alloc,
        Form::word(alloc, b" ", b"this"),
        Form::word(alloc, b" ", b"last"),
    );
    Form::seq(alloc, which, period_form(alloc))
}

fn null_form(alloc: Global) -> Result<Form, NoMemory>
    ensures { IfOk result (λ form. form ≡ null_form) }
{
    let not = Form::optional(alloc, Form::word(alloc, b" ", b"not"));
    Form::seq(alloc, not, Form::word(alloc, b" ", b"null"))
}

fn period_form(alloc: Global) -> Result<Form, NoMemory>
    ensures { IfOk result (λ form. form ≡ period_form) }
{
    let others = Form::either(
        alloc,
        Form::word(alloc, b" ", b"quarter"),
        Form::word(alloc, b" ", b"year"),
    );
    let others = Form::either(alloc, Form::word(alloc, b" ", b"month"), others);
    Form::either(alloc, Form::word(alloc, b" ", b"week"), others)
}

fn units_form(alloc: Global) -> Result<Form, NoMemory>
    ensures { IfOk result (λ form. form ≡ units_form) }
{
    let others = Form::either(
        alloc,
        unit_form(alloc, Period::Quarter),
        unit_form(alloc, Period::Year),
    );
    let others = Form::either(alloc, unit_form(alloc, Period::Month), others);
    let others = Form::either(alloc, unit_form(alloc, Period::Week), others);
    Form::either(alloc, unit_form(alloc, Period::Day), others)
}

fn unit_form(alloc: Global, period: Period) -> Result<Form, NoMemory>
    ensures { IfOk result (λ form. form ≡ unit_form period) }
{
    let plural = Form::word(alloc, b" ", unit_letters(period, Plurality::Plural));
    Form::either(
        alloc,
        plural,
        Form::word(alloc, b" ", unit_letters(period, Plurality::Singular)),
    )
}

fn written_date(alloc: Global) -> Result<Form, NoMemory>
    ensures { IfOk result (λ form. form ≡ written_date) }
{
    Form::free(alloc, b" ", date_form(alloc))
}

fn written_count(alloc: Global) -> Result<Form, NoMemory>
    ensures { IfOk result (λ form. form ≡ written_count) }
{
    Form::free(alloc, b" ", count_form(alloc))
}
