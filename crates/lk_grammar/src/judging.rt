ghost use Rattle.std.specs.Prelude.{◌≡◌, true, false, Some, IfOk, length};
ghost use Rattle.lk_grammar.specs.Forms.{IsText, IsTextAt, is_live, are_sound};
ghost use Rattle.lk_grammar.specs.Places.{Judges};

use crate::form::Form;
use crate::reaching::Reached;
use lk_val::NoMemory;
use std::alloc::Global;

/// The place of the text in a form in which nothing nests: none where the text is of the form, and else the length
/// of its longest prefix that begins some text of the form. Of a form that has no text at all it is 0.
pub fn judge(alloc: Global, form: &Form, text: &[u8]) -> Result<Option<usize>, NoMemory>
    ensures judged { is_live 0 0 form.now ≡ true → IfOk result (Judges (IsText form.now) text.now) }
    ensures dead { is_live 0 0 form.now ≡ false → IfOk result (λ place. place ≡ Some 0) }
{
    judge_nested(alloc, &[], 0, form, text)
}

/// The same of a form under rules, which may stand in one another to a depth.
pub fn judge_nested(
    alloc: Global,
    rules: &[Form],
    depth: usize,
    form: &Form,
    text: &[u8],
) -> Result<Option<usize>, NoMemory>
    ensures judged { are_sound rules.now ≡ true → is_live depth (length rules.now) form.now ≡ true → IfOk result (Judges (IsTextAt rules.now depth form.now) text.now) }
    ensures dead { is_live depth (length rules.now) form.now ≡ false → IfOk result (λ place. place ≡ Some 0) }
{
    Ok(Reached::of(alloc, rules, depth, form, text)?.place())
}
