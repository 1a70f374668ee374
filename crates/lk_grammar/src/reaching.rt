ghost use Rattle.std.specs.Prelude.{◌≡◌, ◌++◌, ◌∷◌, [], ℕ, true, List, IfOk, length};
ghost use Rattle.lk_grammar.specs.Forms.{Form, IsTextAt, is_live, are_sound};
ghost use Rattle.lk_grammar.specs.Places.{IsViable};
ghost use Rattle.lk_grammar.specs.Reaching.{HasReached, Tells, reached_front};

use crate::form::Form;
use crate::stack::Stack;
use crate::steps::{may_end, start, step};
use lk_val::NoMemory;
use std::alloc::Global;

/// How far a text goes under the rules of a grammar, and what may come there.
#[derive(Drop)]
pub struct Reached<'a> {
    rules: &'a [Form],
    stacks: Vec<Stack<'a>>,
    place: Option<usize>,
}

impl<'a> Reached<'a> {
    /// Goes over the text as far as it begins some text of the form. Rules may stand in one another to the depth.
    pub fn of(
        alloc: Global,
        rules: &'a [Form],
        depth: usize,
        form: &'a Form,
        text: &[u8],
    ) -> Result<Reached<'a>, NoMemory>
        ensures { IfOk result (HasReached rules.now depth form.now text.now) }
    {
        let mut stacks = start(alloc, rules, depth, form)?;
        let mut place = 0;
        for byte in text {
            match step(alloc, rules, stacks.as_slice(), *byte)? {
                None => return Ok(Reached {
                    rules,
                    stacks,
                    place: Some(place),
                }),
                Some(next) => stacks = next,
            }
            place += 1;
        }
        let place = if may_end(stacks.as_slice()) {
            None
        } else {
            Some(place)
        };
        Ok(Reached {
            rules,
            stacks,
            place,
        })
    }

    /// The place of the text: none where it is of the form, and else the length of its longest prefix that begins some
    /// text of the form.
    pub fn place(&self) -> Option<usize>
        ensures { result ≡ self.now.place }
    {
        self.place
    }

    /// Whether the byte may come behind that prefix, or behind the text where it is of the form.
    pub fn may_follow(&self, alloc: Global, byte: u8) -> Result<bool, NoMemory>
        ensures { (rules : List Form) (depth : ℕ) (form : Form) (text : List ℕ) → HasReached rules depth form text self.now → are_sound rules ≡ true → is_live depth (length rules) form ≡ true → IfOk result (Tells (IsViable (IsTextAt rules depth form) (reached_front self.now text ++ byte ∷ []))) }
    {
        let next = step(alloc, self.rules, self.stacks.as_slice(), byte)?;
        Ok(next.is_some())
    }
}
