ghost use Rattle.std.specs.Prelude.{◌≡◌, ◌<◌, ◌≤◌, ◌-◌, ℕ, false, List, [], OnOk, IfOk, IfNone, OnSome, IfSome, option_map};
ghost use Rattle.std.specs.List.{sum_by};
ghost use Rattle.lk_grammar.specs.Forms.{form_size};
ghost use Rattle.lk_grammar.specs.Steps.{Stack, open_rule, ways, stack_ways, state_ways, step, may_state_end, start};

use crate::form::{Form, Shape};
use crate::stack::{Stack, Top};
use lk_val::NoMemory;
use std::alloc::Global;

/// The search for what may follow a byte, under the rules of a grammar.
#[derive(Drop)]
struct Search<'a> {
    alloc: Global,
    rules: &'a [Form],
    byte: u8,
}

impl<'a> Search<'a> {
    /// The form of the rule, and none where the depth is 0 or there is no such rule.
    fn opened(&self, depth: usize, rule: usize) -> Option<&'a Form>
        ensures none { IfNone result ((rest : Stack) (found : List Stack) → open_rule self.now.rules.now self.now.byte depth rule rest found ≡ found) }
        ensures some { IfSome result (λ form. (rest : Stack) (found : List Stack) → open_rule self.now.rules.now self.now.byte depth rule rest found ≡ ways self.now.rules.now self.now.byte (depth - 1) form.now rest found) }
        ensures deep { OnSome result (0 < depth) }
        ensures small { IfSome result (λ form. form_size form.now ≤ sum_by form_size self.now.rules.now) }
    {
        if depth == 0 {
            return None;
        }
        if self.rules.len() <= rule {
            return None;
        }
        Some(&self.rules[rule])
    }

    /// Whether something may be found in the form: a text of it may begin with the byte.
    #[tactic(auto, using(crate::proofs::StepLemmas::nothing_begun))]
    fn may_begin(&self, form: &Form) -> bool
        ensures { result ≡ false → (depth : ℕ) (rest : Stack) (found : List Stack) → ways self.now.rules.now self.now.byte depth form.now rest found ≡ found }
    {
        form.may_begin(self.byte)
    }

    /// Adds the stacks that may follow the byte in the form before the rest to those found. Where the byte can't come
    /// next, no stack is made.
    fn ways(
        &self,
        depth: usize,
        form: &'a Form,
        rest: &Stack<'a>,
        found: &mut Vec<Stack<'a>>,
    ) -> Result<(), NoMemory>
        ensures { OnOk result (found.new.items ≡ ways self.now.rules.now self.now.byte depth form.now rest.now found.old.items) }
    {
        match &form.shape {
            Shape::Nothing | Shape::Empty => Ok(()),
            Shape::Byte(low, high) => {
                if *low <= self.byte && self.byte <= *high {
                    rest.add_to(found)?;
                }
                Ok(())
            }
            Shape::Seq(first, second) => {
                if self.may_begin(first) && second.is_live(depth, self.rules.len()) {
                    let longer = Stack::of(self.alloc, depth, second, rest)?;
                    self.ways(depth, first, &longer, found)?;
                }
                if first.may_end() {
                    self.ways(depth, second, rest, found)?;
                }
                Ok(())
            }
            Shape::Either(one, other) => {
                self.ways(depth, one, rest, found)?;
                self.ways(depth, other, rest, found)
            }
            Shape::Many(repeated) => {
                if self.may_begin(repeated) {
                    let longer = Stack::of(self.alloc, depth, form, rest)?;
                    self.ways(depth, repeated, &longer, found)?;
                }
                Ok(())
            }
            Shape::Nested(rule) => {
                if let Some(opened) = self.opened(depth, *rule) {
                    self.ways(depth - 1, opened, rest, found)?;
                }
                Ok(())
            }
        }
    }

    /// Adds the stacks that may follow the byte in the stack to those found.
    fn stack_ways(&self, stack: &Stack<'a>, found: &mut Vec<Stack<'a>>) -> Result<(), NoMemory>
        ensures { OnOk result (found.new.items ≡ stack_ways self.now.rules.now self.now.byte stack.now found.old.items) }
    {
        match &stack.top {
            Top::Done => Ok(()),
            Top::Part(depth, form, rest) => {
                self.ways(*depth, *form, rest, found)?;
                if form.may_end() {
                    self.stack_ways(rest, found)?;
                }
                Ok(())
            }
        }
    }

    /// The stacks that may follow the byte in one of the stacks.
    fn next(&self, stacks: &[Stack<'a>]) -> Result<Vec<Stack<'a>>, NoMemory>
        ensures { IfOk result (λ next. next.items ≡ state_ways self.now.rules.now self.now.byte stacks.now []) }
    {
        let mut found = Vec::new(self.alloc);
        for stack in stacks {
            self.stack_ways(stack, &mut found)?;
        }
        Ok(found)
    }
}

/// The machine's step from the stacks over the byte, and none where nothing may follow it.
pub(crate) fn step<'a>(
    alloc: Global,
    rules: &'a [Form],
    stacks: &[Stack<'a>],
    byte: u8,
) -> Result<Option<Vec<Stack<'a>>>, NoMemory>
    ensures { IfOk result (λ next. option_map (λ v. v.items) next ≡ step rules.now stacks.now byte) }
{
    let search = Search { alloc, rules, byte };
    let next = search.next(stacks)?;
    if next.is_empty() {
        Ok(None)
    } else {
        Ok(Some(next))
    }
}

/// The stacks before the first byte: the form alone, unless it has no text.
pub(crate) fn start<'a>(
    alloc: Global,
    rules: &[Form],
    depth: usize,
    form: &'a Form,
) -> Result<Vec<Stack<'a>>, NoMemory>
    ensures { IfOk result (λ stacks. stacks.items ≡ start rules.now depth form.now) }
{
    let mut stacks = Vec::new(alloc);
    if form.is_live(depth, rules.len()) {
        stacks.push(Stack::of(alloc, depth, form, &Stack::empty())?)?;
    }
    Ok(stacks)
}

/// Whether the empty text is of one of the stacks.
pub(crate) fn may_end(stacks: &[Stack<'_>]) -> bool
    ensures { result ≡ may_state_end stacks.now }
{
    for stack in stacks {
        if stack.may_end() {
            return true;
        }
    }
    false
}
