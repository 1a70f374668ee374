ghost use Rattle.std.specs.Prelude.{◌≡◌, ◌∷◌, [], IfOk, OnOk};
ghost use Rattle.std.specs.List.{list_any};
ghost use Rattle.lk_grammar.specs.Steps.{is_same_stack, may_stack_end, with_stack};

use crate::form::Form;
use lk_val::NoMemory;
use std::alloc::Global;
use std::marker::Model;
use std::rc::Rc;

/// The forms that are still to come, the next one first, each with the depth to which rules may stand in it.
#[cycle(stack)]
#[derive(Drop)]
pub(crate) struct Stack<'a> {
    pub(crate) top: Top<'a>,
}

#[cycle(stack)]
#[derive(Drop)]
pub(crate) enum Top<'a> {
    Done,
    Part(usize, &'a Form, Rc<Stack<'a>>),
}

impl<'a> Model for Stack<'a> {
    ghost use Rattle.std.specs.Prelude.{ℕ, List, length};
    ghost use Rattle.std.specs.Coded.{coded_list, coded×, coded_ℕ};
    ghost use Rattle.lk_grammar.specs.Forms.{Form};
    ghost use Rattle.lk_grammar.specs.Coding.{form_code};

    ghost Value = { List (ℕ × Form) };

    ghost coded = { coded_list (coded× coded_ℕ form_code) };

    ghost use Rattle.lk_grammar.specs.Stacks.{parts_of};

    ghost view = { λ stack. parts_of stack.top };

    ghost size = { length };

    ghost use Rattle.std.proofs.Common.{arith};

    ghost size_decreases = { λ a h. Prim.grind arith };
}

impl<'a> Stack<'a> {
    pub(crate) fn empty() -> Stack<'a>
        ensures { result ≡ [] }
    {
        Stack { top: Top::Done }
    }

    /// The form, and behind it the rest.
    pub(crate) fn of(
        alloc: Global,
        depth: usize,
        form: &'a Form,
        rest: &Stack<'a>,
    ) -> Result<Stack<'a>, NoMemory>
        ensures { IfOk result (λ stack. stack ≡ (depth, form.now) ∷ rest.now) }
    {
        let rest = Rc::new(alloc, rest.share()?)?;
        Ok(Stack {
            top: Top::Part(depth, form, rest),
        })
    }

    /// The same stack, whose rest is shared.
    pub(crate) fn share(&self) -> Result<Stack<'a>, NoMemory>
        ensures { IfOk result (λ stack. stack ≡ self.now) }
    {
        let top = match &self.top {
            Top::Done => Top::Done,
            Top::Part(depth, form, rest) => Top::Part(*depth, *form, rest.clone()?),
        };
        Ok(Stack { top })
    }

    /// Whether two stacks are written alike.
    pub(crate) fn is_same(&self, other: &Stack<'a>) -> bool
        ensures { result ≡ is_same_stack self.now other.now }
    {
        match (&self.top, &other.top) {
            (Top::Done, Top::Done) => true,
            (Top::Part(depth, form, rest), Top::Part(other_depth, other_form, others)) => {
                depth == other_depth && form.is_same(other_form) && rest.is_same(others)
            }
            _ => false,
        }
    }

    /// Whether the empty text is of the stack.
    pub(crate) fn may_end(&self) -> bool
        ensures { result ≡ may_stack_end self.now }
    {
        match &self.top {
            Top::Done => true,
            Top::Part(_, form, rest) => form.may_end() && rest.may_end(),
        }
    }

    /// Whether the stack is among those found.
    fn is_among(&self, found: &[Stack<'a>]) -> bool
        ensures { result ≡ list_any (is_same_stack self.now) found.now }
    {
        for stack in found {
            if self.is_same(stack) {
                return true;
            }
        }
        false
    }

    /// Adds the stack to those found, unless it is among them.
    pub(crate) fn add_to(&self, found: &mut Vec<Stack<'a>>) -> Result<(), NoMemory>
        ensures { OnOk result (found.new.items ≡ with_stack self.now found.old.items) }
    {
        if !self.is_among(found.as_slice()) {
            found.push(self.share()?)?;
        }
        Ok(())
    }
}
