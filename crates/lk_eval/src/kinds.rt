ghost use Rattle.std.specs.Prelude.{◌≡◌, ◌≤◌, [], ◌∷◌, true, false, drop, length, slice_get, IfOk, IfErr, IfSome, IfNone};
ghost use Rattle.std.specs.List.{list_all};
ghost use Rattle.lk_postfix.specs.Postfix.{after_nodes};
ghost use Rattle.lk_types.specs.FormulaNodes.{arity};
ghost use Rattle.lk_types.specs.Kinds.{is_empty, single, kinds_of_value, kind_among, kind_at, kinds_of_column, kinds_framed, truth_if, number_if, text_if, kinds_of, do_compare};
ghost use Rattle.lk_eval.specs.NodeKinds.{all_shared, branches_shared, kinds_made, operand};
ghost use Rattle.lk_eval.specs.declared.kinds.Clash.TheVariants as clash;

use lk_postfix::{Stack, TakesOperands};
use lk_types::{Expr, Frame, Kind, KindSet, Leaves, Node};
use lk_val::{NoMemory, Value};
use std::alloc::Global;

/// Why an expression has no kind.
#[derive(Clone, Copy, PartialEq, Eq)]
pub enum Clash {
    /// Kinds clash in it. (lookd)
    E3,
    /// There is no memory to tell.
    NoMemory,
}

impl From<NoMemory> for Clash {
    ghost use Rattle.std.specs.Prelude.{◌≡◌};
    ghost use Rattle.lk_eval.specs.declared.kinds.Clash.TheVariants as clash;

    ghost from_gives = { λ _ fault. fault ≡ clash.NoMemory };

    fn from(_: NoMemory) -> Clash {
        Clash::NoMemory
    }
}

/// The kind of an expression over columns of these kinds, or none where several are left, as for a bare NULL. A
/// column that is not among them has no kind, and clashes (E3). (lookd)
pub fn kind_of(alloc: Global, e: &Expr, leaf: &Leaves) -> Result<Option<Kind>, Clash>
    ensures clash { IfErr result (λ fault. fault ≡ clash.E3 → is_empty (kinds_of leaf.now e.now) ≡ true) }
    ensures clean { IfOk result (λ kind. is_empty (kinds_of leaf.now e.now) ≡ false) }
    ensures kind { IfOk result (λ kind. kind ≡ single (kinds_of leaf.now e.now)) }
{
    let kinds = kinds_of(alloc, e, leaf)?;
    if kinds.is_empty() {
        return Err(Clash::E3);
    }
    Ok(kinds.single())
}

fn kinds_of(alloc: Global, e: &Expr, leaf: &Leaves) -> Result<KindSet, NoMemory>
    ensures { IfOk result (λ kinds. kinds ≡ kinds_of leaf.now e.now) }
{
    let stack = kinds_left(alloc, e.nodes(), leaf)?;
    Ok(operand(stack.as_slice(), 0))
}

// The sets of kinds that the nodes leave on the stack.
fn kinds_left(alloc: Global, nodes: &[Node], leaf: &Leaves) -> Result<Stack<KindSet>, NoMemory>
    ensures { IfOk result (λ stack. stack ≡ after_nodes arity (kinds_made leaf.now) [] nodes.now) }
{
    let mut stack = Stack::new(alloc);
    for node in nodes {
        let count = node.arity();
        let made = kinds_made(node, stack.operands(count), leaf);
        stack.replace(count, made)?;
    }
    Ok(stack)
}

// The kinds of an operand by its place; every kind where there is none.
fn operand(kinds: &[KindSet], place: usize) -> KindSet
    ensures { result ≡ operand kinds.now place }
{
    match kinds.get(place) {
        Some(kinds) => *kinds,
        None => KindSet::every(),
    }
}

/// The kinds that a node may have, given those of its operands; of a column, the kind among the given ones. (lookd)
pub fn kinds_made(node: &Node, kinds: &[KindSet], leaf: &Leaves) -> KindSet
    ensures { result ≡ kinds_made leaf.now node.now kinds.now }
{
    let (a, b) = (operand(kinds, 0), operand(kinds, 1));
    match node {
        Node::Column(part, column) => kinds_of_column(kind_at(leaf, *part, *column)),
        Node::Literal(v) => kinds_of_value(v),
        Node::Framed(frame) => kinds_framed(*frame, a),
        Node::Not => truth_if(a.truth),
        Node::And | Node::Or => truth_if(a.truth && b.truth),
        Node::Compare(_) => truth_if(a.does_compare(b)),
        Node::IsNull => truth_if(!a.is_empty()),
        Node::In(_) => truth_if(!a.is_empty() && do_others_compare(a, kinds)),
        Node::Between => truth_if(a.does_compare(b) && a.does_compare(operand(kinds, 2))),
        Node::Like(_) => truth_if(a.text),
        Node::Number(_) => number_if(a.number && b.number),
        Node::Negate => number_if(a.number),
        Node::Concat => text_if(a.text && b.text),
        Node::Case(_) => branches_shared(kinds),
        Node::Coalesce(_) => all_shared(kinds),
        Node::NullIf => a.shared(b.comparable()),
        Node::Lower | Node::Upper => text_if(a.text),
    }
}

// Whether each set behind the first has a kind that compares with one of these.
fn do_others_compare(kinds: KindSet, all: &[KindSet]) -> bool
    ensures { result ≡ list_all (do_compare kinds) (drop 1 all.now) }
{
    match all.split_first() {
        Some((_, others)) => do_all_compare(kinds, others),
        None => true,
    }
}

fn do_all_compare(kinds: KindSet, others: &[KindSet]) -> bool
    ensures { result ≡ list_all (do_compare kinds) others.now }
{
    others.iter().all(|other| kinds.does_compare(*other))
}

// The kinds that all have.
fn all_shared(all: &[KindSet]) -> KindSet
    ensures { result ≡ all_shared all.now }
{
    let mut shared = KindSet::every();
    for kinds in all {
        shared = shared.shared(*kinds);
    }
    shared
}

// The kinds that all branches have, where the conditions may be truth values.
fn branches_shared(all: &[KindSet]) -> KindSet
    ensures { result ≡ branches_shared all.now }
{
    let mut shared = KindSet::every();
    let mut rest = all;
    for _used in all {
        let Some((condition, kinds, behind)) = first_branch(rest) else {
            return shared.shared(operand(rest, 0));
        };
        shared = shared.shared(kinds).kept_if(condition.truth);
        rest = behind;
    }
    shared
}

// The kinds of a condition and of its value, and what is behind them, where there are two or more.
fn first_branch(all: &[KindSet]) -> Option<(KindSet, KindSet, &[KindSet])>
    ensures some { IfSome result (λ found. all.now ≡ found.0 ∷ found.1 ∷ found.2.now) }
    ensures none { IfNone result (length all.now ≤ 1) }
{
    match all {
        [condition, kinds, behind @ ..] => Some((*condition, *kinds, behind)),
        _ => None,
    }
}

// The kinds that a value may have.
fn kinds_of_value(v: &Value) -> KindSet
    ensures { result ≡ kinds_of_value v.now }
{
    match v {
        Value::Null => KindSet::every(),
        Value::Text(_) => KindSet::only(Kind::Text),
        Value::Num(_) => KindSet::only(Kind::Number),
        Value::Truth(_) => KindSet::only(Kind::Truth),
        Value::Day(_) => KindSet::only(Kind::Day),
        Value::Moment(_) => KindSet::only(Kind::Moment),
    }
}

// The kind of a part's column, if there is such a column.
fn kind_at(leaf: &Leaves, part: u32, column: u32) -> Option<Kind>
    ensures { result ≡ kind_at leaf.now part column }
{
    match leaf.kinds.as_slice().get(part as usize) {
        Some(kinds) => kind_among(kinds.as_slice(), column),
        None => None,
    }
}

fn kind_among(kinds: &[Kind], column: u32) -> Option<Kind>
    ensures { result ≡ slice_get kinds.now column }
{
    match kinds.get(column as usize) {
        Some(kind) => Some(*kind),
        None => None,
    }
}

// The kinds of a column of this kind.
fn kinds_of_column(kind: Option<Kind>) -> KindSet
    ensures { result ≡ kinds_of_column kind }
{
    match kind {
        Some(kind) => KindSet::only(kind),
        None => KindSet::none(),
    }
}

/// The kinds of a timeframe of an expression of these kinds: none where it is neither a day nor a moment. (lookd)
pub fn kinds_framed(frame: Frame, kinds: KindSet) -> KindSet
    ensures { result ≡ kinds_framed frame kinds }
{
    let timed = kinds.has_time();
    match frame {
        Frame::Raw => KindSet {
            day: kinds.day,
            moment: kinds.moment,
            ..KindSet::none()
        },
        Frame::Time => KindSet::only(Kind::Moment).kept_if(timed),
        Frame::HourOfDay | Frame::DayOfMonth | Frame::MonthNum => number_if(timed),
        Frame::DayOfWeek => text_if(timed),
        Frame::Date | Frame::Week | Frame::Month | Frame::Quarter | Frame::Year => {
            KindSet::only(Kind::Day).kept_if(timed)
        }
    }
}

// The set of truth alone, where the condition holds.
fn truth_if(condition: bool) -> KindSet
    ensures { result ≡ truth_if condition }
{
    KindSet::only(Kind::Truth).kept_if(condition)
}

// The set of number alone, where the condition holds.
fn number_if(condition: bool) -> KindSet
    ensures { result ≡ number_if condition }
{
    KindSet::only(Kind::Number).kept_if(condition)
}

// The set of text alone, where the condition holds.
fn text_if(condition: bool) -> KindSet
    ensures { result ≡ text_if condition }
{
    KindSet::only(Kind::Text).kept_if(condition)
}
