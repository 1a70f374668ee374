ghost use Rattle.std.specs.Prelude.{◌≡◌, ◌++◌, IfOk};
ghost use Rattle.lk_postfix.specs.Postfix.{Builds};
ghost use Rattle.lk_types.specs.FormulaNodes.{arity, made};

use crate::reading::time_beside;
use crate::text_literal::text_of_node;
use lk_types::{Expr, KindSet, Node};
use lk_val::{Copied, Items, NoMemory, Text};
use std::alloc::Global;
use std::collections::VecDeque;
use std::marker::Model;

// An expression whose nodes are moved into larger ones. They grow at both ends, so that where two lists are joined the
// shorter one moves: a node moves at most as often as its list can double. Clauses see it as its tree.
#[derive(Drop)]
pub(crate) struct Tree {
    nodes: VecDeque<Node>,
}

impl Model for Tree {
    ghost use Rattle.std.specs.Prelude.{◌≡◌, true};
    ghost use Rattle.lk_types.specs.Formula.{Formula};

    ghost Value = { Formula };

    ghost use Rattle.lk_types.specs.FormulaCode.{coded_formula};
    ghost use Rattle.lk_types.specs.FormulaNodes.{arity, formula_of};
    ghost use Rattle.lk_postfix.specs.Postfix.{is_whole};

    ghost coded = { coded_formula };

    ghost view = { λ tree. formula_of tree.nodes.items };

    ghost invariant = { λ tree. is_whole arity tree.nodes.items ≡ true };
}

impl Tree {
    ghost use Rattle.std.specs.Prelude.{◌≡◌, ◌∷◌, [], IfOk, length, option_map};
    ghost use Rattle.lk_types.specs.FormulaNodes.{arity, made};
    ghost use Rattle.lk_dated.specs.Dated.{read_beside, text_of};

    // The tree of a node without operands.
    pub(crate) fn leaf(alloc: Global, node: Node) -> Result<Tree, NoMemory>
        requires { arity node ≡ 0 }
        ensures { IfOk result (λ tree. tree ≡ made node []) }
    {
        let mut nodes = VecDeque::new(alloc);
        nodes.push_back(node)?;
        Ok(Tree { nodes })
    }

    // The tree of a node that takes two operands.
    pub(crate) fn binary(node: Node, a: Tree, b: Tree) -> Result<Tree, NoMemory>
        requires { arity node ≡ 2 }
        ensures { IfOk result (λ tree. tree ≡ made node (a ∷ b ∷ [])) }
    {
        let Tree { nodes } = a;
        let Tree { nodes: others } = b;
        let mut nodes = behind(nodes, others)?;
        nodes.push_back(node)?;
        Ok(Tree { nodes })
    }

    // The tree of a node and its operands.
    pub(crate) fn of(alloc: Global, node: Node, operands: Vec<Tree>) -> Result<Tree, NoMemory>
        requires { length operands.items ≡ arity node }
        ensures { IfOk result (λ tree. tree ≡ made node operands.items) }
    {
        let mut nodes = joined(alloc, operands)?;
        nodes.push_back(node)?;
        Ok(Tree { nodes })
    }

    // Another tree of the same expression.
    pub(crate) fn copy_of(alloc: Global, e: &Expr) -> Result<Tree, NoMemory>
        ensures { IfOk result (λ tree. tree ≡ e.now) }
    {
        let mut nodes = VecDeque::new(alloc);
        add_copies(alloc, e.nodes(), &mut nodes)?;
        Ok(Tree { nodes })
    }

    // Another tree that is equal.
    pub(crate) fn copy(&self, alloc: Global) -> Result<Tree, NoMemory>
        ensures { IfOk result (λ tree. tree ≡ self.now) }
    {
        let (front, back) = self.nodes.as_slices();
        let mut nodes = VecDeque::new(alloc);
        add_copies(alloc, front, &mut nodes)?;
        add_copies(alloc, back, &mut nodes)?;
        Ok(Tree { nodes })
    }

    // Its expression.
    pub(crate) fn into_expr(self) -> Expr
        ensures { result ≡ self }
    {
        let Tree { nodes } = self;
        match Expr::from_nodes(Items::from_vec(nodes.into_vec())) {
            Some(expr) => expr,
            None => unreachable!(),
        }
    }

    // Its text, where it is a text literal.
    pub(crate) fn text(&self) -> Option<&Text>
        ensures { option_map (λ text. text.now) result ≡ text_of self.now }
    {
        match self.nodes.back() {
            Some(last) => text_of_node(last),
            None => None,
        }
    }

    // The tree beside one of these kinds: where it is a text literal, it is read.
    pub(crate) fn read_beside(self, alloc: Global, kinds: KindSet) -> Result<Tree, NoMemory>
        ensures { IfOk result (λ tree. tree ≡ read_beside kinds self) }
    {
        let time = match self.text() {
            Some(text) => time_beside(kinds, text.as_bytes()),
            None => None,
        };
        match time {
            Some(value) => Tree::leaf(alloc, Node::Literal(value)),
            None => Ok(self),
        }
    }
}

// Adds copies of some nodes at the end.
fn add_copies(alloc: Global, added: &[Node], nodes: &mut VecDeque<Node>) -> Result<(), NoMemory>
    ensures { IfOk result (λ _. nodes.new.items ≡ nodes.old.items ++ added.now) }
{
    for node in added {
        nodes.push_back(node.copied(alloc)?)?;
    }
    Ok(())
}

// The nodes of some trees, one behind the other.
fn joined(alloc: Global, trees: Vec<Tree>) -> Result<VecDeque<Node>, NoMemory>
    ensures { IfOk result (λ nodes. Builds arity made nodes.items trees.items) }
{
    let mut nodes = VecDeque::new(alloc);
    for tree in trees {
        let Tree { nodes: others } = tree;
        nodes = behind(nodes, others)?;
    }
    Ok(nodes)
}

// One list of nodes behind another. The shorter one moves.
fn behind(nodes: VecDeque<Node>, others: VecDeque<Node>) -> Result<VecDeque<Node>, NoMemory>
    ensures { IfOk result (λ all. all.items ≡ nodes.items ++ others.items) }
{
    if nodes.len() < others.len() {
        put_before(nodes, others)
    } else {
        put_behind(nodes, others)
    }
}

fn put_behind(nodes: VecDeque<Node>, others: VecDeque<Node>) -> Result<VecDeque<Node>, NoMemory>
    ensures { IfOk result (λ all. all.items ≡ nodes.items ++ others.items) }
{
    let mut all = nodes;
    let mut others = others;
    all.append(&mut others)?;
    Ok(all)
}

fn put_before(nodes: VecDeque<Node>, others: VecDeque<Node>) -> Result<VecDeque<Node>, NoMemory>
    ensures { IfOk result (λ all. all.items ≡ nodes.items ++ others.items) }
{
    let mut left = nodes;
    let mut all = others;
    while let Some(node) = left.pop_back() {
        all.push_front(node)?;
    }
    Ok(all)
}
