ghost use Rattle.std.specs.Prelude.{◌≡◌, IfOk, IsOkAnd};
ghost use Rattle.lk_grammar.specs.Listed.{listed};

use crate::form::Form;
use lk_val::NoMemory;
use std::alloc::Global;

/// Nothing but spaces, which are the white bytes; or an item with any number of further ones, and spaces.
pub fn listed(
    alloc: Global,
    white: &[u8],
    item: Result<Form, NoMemory>,
    further: Result<Form, NoMemory>,
) -> Result<Form, NoMemory>
    ensures { IfOk result (λ form.
        IsOkAnd item (λ first. IsOkAnd further (λ next. form ≡ listed white.now first next))) }
{
    let further = Form::seq(
        alloc,
        Form::many(alloc, further),
        Form::spaces(alloc, white),
    );
    let items = Form::seq(alloc, item, further);
    Form::either(alloc, Form::spaces(alloc, white), items)
}
