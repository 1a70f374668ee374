ghost use Rattle.std.specs.Prelude.{◌≡◌, IfOk, IsOkAnd, length};
ghost use Rattle.lk_grammar.specs.Words.{exactly, char, letters, any_of, spaces, free, word};
ghost use Rattle.lk_grammar.specs.Forms.{nothing, empty, byte, seq, either, many, nested, optional, choice, sequence, may_end, is_live, is_same_form};
ghost use Rattle.lk_grammar.specs.Steps.{may_begin};
ghost use Rattle.std.specs.Vec.Iter.{into_iter_items};

use lk_val::NoMemory;
use std::alloc::Global;
use std::marker::Model;
use std::rc::Rc;
use std::vec::IntoIter;

/// A grammar as a value, which clauses see as a form. A form that stands in several places is kept once. What makes a form
/// of others takes them as they were made: where one of them wanted memory, so does the whole.
#[cycle(form)]
#[derive(Drop)]
pub struct Form {
    pub(crate) shape: Shape,
}

#[cycle(form)]
#[derive(Drop)]
pub(crate) enum Shape {
    Nothing,
    Empty,
    Byte(u8, u8),
    Seq(Rc<Form>, Rc<Form>),
    Either(Rc<Form>, Rc<Form>),
    Many(Rc<Form>),
    Nested(usize),
}

impl Model for Form {
    ghost use Rattle.lk_grammar.specs.Forms.{Form, form_size};
    ghost use Rattle.lk_grammar.specs.Coding.{form_code};

    ghost Value = { Form };

    ghost coded = { form_code };

    ghost use Rattle.lk_grammar.specs.Shapes.{form_of};

    ghost view = { λ form. form_of form.shape };

    ghost size = { form_size };

    ghost use Rattle.std.proofs.Common.{arith};

    ghost size_decreases = { λ a h. Prim.grind arith };
}

impl Form {
    /// No text at all.
    pub fn nothing() -> Form
        ensures { result ≡ nothing }
    {
        Form {
            shape: Shape::Nothing,
        }
    }

    /// The empty text alone.
    pub fn empty() -> Form
        ensures { result ≡ empty }
    {
        Form {
            shape: Shape::Empty,
        }
    }

    /// One byte.
    pub fn byte(value: u8) -> Form
        ensures { result ≡ byte value value }
    {
        Form::range(value, value)
    }

    /// One byte from the lowest to the highest.
    pub fn range(low: u8, high: u8) -> Form
        ensures { result ≡ byte low high }
    {
        Form {
            shape: Shape::Byte(low, high),
        }
    }

    /// A text of the rule with this number, one level deeper.
    pub fn nested(rule: usize) -> Form
        ensures { result ≡ nested rule }
    {
        Form {
            shape: Shape::Nested(rule),
        }
    }

    /// A text of the first form, and behind it one of the second.
    pub fn seq(
        alloc: Global,
        first: Result<Form, NoMemory>,
        second: Result<Form, NoMemory>,
    ) -> Result<Form, NoMemory>
        ensures { IfOk result (λ form.
            IsOkAnd first (λ front. IsOkAnd second (λ back. form ≡ seq front back))) }
    {
        let first = Rc::new(alloc, first?)?;
        let second = Rc::new(alloc, second?)?;
        Ok(Form {
            shape: Shape::Seq(first, second),
        })
    }

    /// A text of one form or of the other.
    pub fn either(
        alloc: Global,
        one: Result<Form, NoMemory>,
        other: Result<Form, NoMemory>,
    ) -> Result<Form, NoMemory>
        ensures { IfOk result (λ form.
            IsOkAnd one (λ this. IsOkAnd other (λ that. form ≡ either this that))) }
    {
        let one = Rc::new(alloc, one?)?;
        let other = Rc::new(alloc, other?)?;
        Ok(Form {
            shape: Shape::Either(one, other),
        })
    }

    /// Any number of texts of the form, one behind the other.
    pub fn many(alloc: Global, form: Result<Form, NoMemory>) -> Result<Form, NoMemory>
        ensures { IfOk result (λ repeated. IsOkAnd form (λ once. repeated ≡ many once)) }
    {
        let form = Rc::new(alloc, form?)?;
        Ok(Form {
            shape: Shape::Many(form),
        })
    }

    /// A text of the form, or the empty one.
    pub fn optional(alloc: Global, form: Result<Form, NoMemory>) -> Result<Form, NoMemory>
        ensures { IfOk result (λ either. IsOkAnd form (λ once. either ≡ optional once)) }
    {
        Form::either(alloc, form, Ok(Form::empty()))
    }

    /// A text of one of the forms.
    pub fn choice(alloc: Global, forms: Vec<Form>) -> Result<Form, NoMemory>
        ensures { IfOk result (λ form. form ≡ choice forms.items) }
    {
        choice_of(alloc, &mut forms.into_iter())
    }

    /// A text of each form, one behind the other.
    pub fn sequence(alloc: Global, forms: Vec<Form>) -> Result<Form, NoMemory>
        ensures { IfOk result (λ form. form ≡ sequence forms.items) }
    {
        sequence_of(alloc, &mut forms.into_iter())
    }

    /// The bytes as they are written.
    pub fn exactly(alloc: Global, bytes: &[u8]) -> Result<Form, NoMemory>
        ensures { IfOk result (λ form. form ≡ exactly bytes.now) }
    {
        match bytes.split_first() {
            None => Ok(Form::empty()),
            Some((first, rest)) => {
                Form::seq(alloc, Ok(Form::byte(*first)), Form::exactly(alloc, rest))
            }
        }
    }

    /// A small letter in any case, and any other byte as it is.
    pub fn char(alloc: Global, small: u8) -> Result<Form, NoMemory>
        ensures { IfOk result (λ form. form ≡ char small) }
    {
        if small.is_ascii_lowercase() {
            Form::either(alloc, Ok(Form::byte(small)), Ok(Form::byte(small - 32)))
        } else {
            Ok(Form::byte(small))
        }
    }

    /// Letters in any case; they are given as small ones.
    pub fn letters(alloc: Global, small: &[u8]) -> Result<Form, NoMemory>
        ensures { IfOk result (λ form. form ≡ letters small.now) }
    {
        match small.split_first() {
            None => Ok(Form::empty()),
            Some((first, rest)) => {
                Form::seq(alloc, Form::char(alloc, *first), Form::letters(alloc, rest))
            }
        }
    }

    /// One of the bytes.
    pub fn any_of(alloc: Global, bytes: &[u8]) -> Result<Form, NoMemory>
        ensures { IfOk result (λ form. form ≡ any_of bytes.now) }
    {
        match bytes.split_first() {
            None => Ok(Form::nothing()),
            Some((first, rest)) => {
                Form::either(alloc, Ok(Form::byte(*first)), Form::any_of(alloc, rest))
            }
        }
    }

    /// Any number of spaces, which are the white bytes.
    pub fn spaces(alloc: Global, white: &[u8]) -> Result<Form, NoMemory>
        ensures { IfOk result (λ form. form ≡ spaces white.now) }
    {
        Form::many(alloc, Form::any_of(alloc, white))
    }

    /// The form with free spaces before it.
    pub fn free(alloc: Global, white: &[u8], form: Result<Form, NoMemory>) -> Result<Form, NoMemory>
        ensures { IfOk result (λ made. IsOkAnd form (λ bare. made ≡ free white.now bare)) }
    {
        Form::seq(alloc, Form::spaces(alloc, white), form)
    }

    /// A word: letters in any case, given as small ones, with free spaces before them.
    pub fn word(alloc: Global, white: &[u8], small: &[u8]) -> Result<Form, NoMemory>
        ensures { IfOk result (λ form. form ≡ word white.now small.now) }
    {
        Form::free(alloc, white, Form::letters(alloc, small))
    }

    /// The same form, whose parts are shared and not copied.
    pub fn share(&self) -> Result<Form, NoMemory>
        ensures { IfOk result (λ form. form ≡ self.now) }
    {
        let shape = match &self.shape {
            Shape::Nothing => Shape::Nothing,
            Shape::Empty => Shape::Empty,
            Shape::Byte(low, high) => Shape::Byte(*low, *high),
            Shape::Seq(first, second) => Shape::Seq(first.clone()?, second.clone()?),
            Shape::Either(one, other) => Shape::Either(one.clone()?, other.clone()?),
            Shape::Many(form) => Shape::Many(form.clone()?),
            Shape::Nested(rule) => Shape::Nested(*rule),
        };
        Ok(Form { shape })
    }

    /// Whether the empty text is of the form, where it is of no rule.
    pub fn may_end(&self) -> bool
        ensures { result ≡ may_end self.now }
    {
        match &self.shape {
            Shape::Nothing | Shape::Byte(_, _) | Shape::Nested(_) => false,
            Shape::Empty | Shape::Many(_) => true,
            Shape::Seq(first, second) => first.may_end() && second.may_end(),
            Shape::Either(one, other) => one.may_end() || other.may_end(),
        }
    }

    /// Whether a text of the form may begin with the byte, as far as the form shows it without its rules.
    pub(crate) fn may_begin(&self, byte: u8) -> bool
        ensures { result ≡ may_begin byte self.now }
    {
        match &self.shape {
            Shape::Nothing | Shape::Empty => false,
            Shape::Byte(low, high) => *low <= byte && byte <= *high,
            Shape::Seq(first, second) => first.may_begin(byte)
                || first.may_end() && second.may_begin(byte),
            Shape::Either(one, other) => one.may_begin(byte) || other.may_begin(byte),
            Shape::Many(form) => form.may_begin(byte),
            Shape::Nested(_) => true,
        }
    }

    /// Whether some text is of the form, where rules may stand in one another to this depth and each of them has some.
    pub fn is_live(&self, depth: usize, rules: usize) -> bool
        ensures { result ≡ is_live depth rules self.now }
    {
        match &self.shape {
            Shape::Nothing => false,
            Shape::Empty | Shape::Many(_) => true,
            Shape::Byte(low, high) => low <= high,
            Shape::Seq(first, second) => first.is_live(depth, rules)
                && second.is_live(depth, rules),
            Shape::Either(one, other) => one.is_live(depth, rules) || other.is_live(depth, rules),
            Shape::Nested(rule) => 0 < depth && *rule < rules,
        }
    }

    /// Whether two forms are written alike.
    pub(crate) fn is_same(&self, other: &Form) -> bool
        ensures { result ≡ is_same_form self.now other.now }
    {
        match (&self.shape, &other.shape) {
            (Shape::Nothing, Shape::Nothing) | (Shape::Empty, Shape::Empty) => true,
            (Shape::Byte(low, high), Shape::Byte(from, upto)) => low == from && high == upto,
            (Shape::Seq(first, second), Shape::Seq(front, back)) => first.is_same(front)
                && second.is_same(back),
            (Shape::Either(one, other), Shape::Either(this, that)) => one.is_same(this)
                && other.is_same(that),
            (Shape::Many(form), Shape::Many(other)) => form.is_same(other),
            (Shape::Nested(rule), Shape::Nested(other)) => rule == other,
            _ => false,
        }
    }
}

fn choice_of(alloc: Global, forms: &mut IntoIter<Form>) -> Result<Form, NoMemory>
    ensures { IfOk result (λ form. form ≡ choice (into_iter_items forms.old)) }
{
    match forms.next() {
        None => Ok(Form::nothing()),
        Some(form) => Form::either(alloc, Ok(form), choice_of(alloc, forms)),
    }
}

fn sequence_of(alloc: Global, forms: &mut IntoIter<Form>) -> Result<Form, NoMemory>
    ensures { IfOk result (λ form. form ≡ sequence (into_iter_items forms.old)) }
{
    match forms.next() {
        None => Ok(Form::empty()),
        Some(form) => Form::seq(alloc, Ok(form), sequence_of(alloc, forms)),
    }
}
