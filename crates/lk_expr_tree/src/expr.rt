ghost use Rattle.std.specs.Prelude.{◌≡◌, ◌+◌, ◌<◌, IfOk, Some};
ghost use Rattle.lk_postfix.specs.Postfix.{depth_after};
ghost use Rattle.lk_expr_tree.specs.RawNodes.{arity};

use crate::raw::RawNode;
use lk_postfix::append;
use lk_val::{Bytes, Items, NoMemory};
use std::alloc::Global;

/// An expression as it is written, with its names unresolved. It is kept as the list of its nodes, each behind its
/// operands (postfix order), so that no expression takes the stack of the machine.
#[derive(Drop)]
pub struct RawExpr {
    nodes: Items<RawNode>,
    ghost whole: { depth_after arity 0 nodes ≡ Some 1 },
}

/// One or more expressions, in order: the nodes of each stand behind those of the one before.
#[derive(Drop)]
pub struct RawArgs {
    nodes: Items<RawNode>,
    count: usize,
    ghost whole: { depth_after arity 0 nodes ≡ Some count },
    ghost some: { 0 < count },
}

/// One or more conditions with their values, in order, as so many expressions: a condition, its value, and so on.
#[derive(Drop)]
pub struct RawBranches {
    nodes: Items<RawNode>,
    count: usize,
    ghost whole: { depth_after arity 0 nodes ≡ Some count },
    ghost some: { 0 < count },
}

impl RawExpr {
    ghost use Rattle.std.specs.Prelude.{◌≡◌, ◌∷◌, [], IfOk, Some};
    ghost use Rattle.lk_postfix.specs.Postfix.{depth_after};
    ghost use Rattle.lk_expr_tree.specs.RawNodes.{arity, made, trees_of};
    ghost use Rattle.lk_expr_tree.specs.Grammar.{In, CaseElse};
    ghost use Rattle.lk_expr_tree.specs.RawCode.{tree_of, args_of, branches_of};

    /// The nodes, each behind its operands. They build the tree, so one pass over them with a stack computes what a
    /// recursion over the tree would.
    pub fn nodes(&self) -> &[RawNode]
        ensures value { trees_of result.now ≡ tree_of self.now ∷ [] }
        ensures whole { depth_after arity 0 result.now ≡ Some 1 }
    {
        self.nodes.as_slice()
    }

    /// A node that takes no operand.
    pub(crate) fn leaf(alloc: Global, node: RawNode) -> Result<RawExpr, NoMemory>
        requires { arity node ≡ 0 }
        ensures { IfOk result (λ e. tree_of e ≡ made node []) }
    {
        RawExpr::over(Items::new(alloc), node)
    }

    /// A node behind its one operand.
    pub(crate) fn unary(node: RawNode, a: RawExpr) -> Result<RawExpr, NoMemory>
        requires { arity node ≡ 1 }
        ensures { IfOk result (λ e. tree_of e ≡ made node (tree_of a ∷ [])) }
    {
        RawExpr::over(a.nodes, node)
    }

    /// A node behind its two operands.
    pub(crate) fn binary(node: RawNode, a: RawExpr, b: RawExpr) -> Result<RawExpr, NoMemory>
        requires { arity node ≡ 2 }
        ensures { IfOk result (λ e. tree_of e ≡ made node (tree_of a ∷ tree_of b ∷ [])) }
    {
        RawExpr::over(append(a.nodes, b.nodes)?, node)
    }

    /// A node behind its three operands.
    pub(crate) fn ternary(
        node: RawNode,
        a: RawExpr,
        b: RawExpr,
        c: RawExpr,
    ) -> Result<RawExpr, NoMemory>
        requires { arity node ≡ 3 }
        ensures { IfOk result (λ e. tree_of e ≡ made node (tree_of a ∷ tree_of b ∷ tree_of c ∷ [])) }
    {
        RawExpr::over(append(append(a.nodes, b.nodes)?, c.nodes)?, node)
    }

    /// A tree IN a list.
    pub(crate) fn listed(negated: bool, a: RawExpr, list: RawArgs) -> Result<RawExpr, NoMemory>
        ensures { IfOk result (λ e. tree_of e ≡ In negated (tree_of a) (args_of list)) }
    {
        let count = sum(list.count, 1)?;
        RawExpr::over(append(a.nodes, list.nodes)?, RawNode::In(negated, count))
    }

    /// A CASE with its ELSE.
    pub(crate) fn case_else(branches: RawBranches, other: RawExpr) -> Result<RawExpr, NoMemory>
        ensures { IfOk result (λ e. tree_of e ≡ CaseElse (branches_of branches) (tree_of other)) }
    {
        let count = sum(branches.count, 1)?;
        RawExpr::over(
            append(branches.nodes, other.nodes)?,
            RawNode::CaseElse(count),
        )
    }

    // The expression of a node that stands behind all its operands.
    fn over(nodes: Items<RawNode>, node: RawNode) -> Result<RawExpr, NoMemory>
        requires { depth_after arity 0 nodes ≡ Some (arity node) }
        ensures { IfOk result (λ e. tree_of e ≡ made node (trees_of nodes)) }
    {
        let mut nodes = nodes;
        nodes.push(node)?;
        Ok(RawExpr { nodes })
    }
}

impl RawArgs {
    ghost use Rattle.std.specs.Prelude.{◌≡◌, IfOk};
    ghost use Rattle.lk_expr_tree.specs.Grammar.{Call, one, more};
    ghost use Rattle.lk_expr_tree.specs.RawCode.{tree_of, args_of};

    /// One expression alone.
    pub(crate) fn one(a: RawExpr) -> RawArgs
        ensures { args_of result ≡ one (tree_of a) }
    {
        RawArgs {
            nodes: a.nodes,
            count: 1,
        }
    }

    /// One expression more.
    pub(crate) fn with(self, a: RawExpr) -> Result<RawArgs, NoMemory>
        ensures { IfOk result (λ args. args_of args ≡ more (args_of self) (tree_of a)) }
    {
        let count = sum(self.count, 1)?;
        Ok(RawArgs {
            nodes: append(self.nodes, a.nodes)?,
            count,
        })
    }

    /// The call of a function with these arguments.
    pub(crate) fn called(self, name: Bytes, place: usize) -> Result<RawExpr, NoMemory>
        ensures { IfOk result (λ e. tree_of e ≡ Call name place (args_of self)) }
    {
        RawExpr::over(self.nodes, RawNode::Call(name, place, self.count))
    }
}

impl RawBranches {
    ghost use Rattle.std.specs.Prelude.{◌≡◌, IfOk};
    ghost use Rattle.lk_expr_tree.specs.Grammar.{Case, when, then_when};
    ghost use Rattle.lk_expr_tree.specs.RawCode.{tree_of, branches_of};

    /// One condition with its value.
    pub(crate) fn one(c: RawExpr, a: RawExpr) -> Result<RawBranches, NoMemory>
        ensures { IfOk result (λ branches. branches_of branches ≡ when (tree_of c) (tree_of a)) }
    {
        Ok(RawBranches {
            nodes: append(c.nodes, a.nodes)?,
            count: 2,
        })
    }

    /// One condition more, with its value.
    pub(crate) fn with(self, c: RawExpr, a: RawExpr) -> Result<RawBranches, NoMemory>
        ensures { IfOk result (λ more. branches_of more ≡ then_when (branches_of self) (tree_of c) (tree_of a)) }
    {
        let count = sum(self.count, 2)?;
        Ok(RawBranches {
            nodes: append(append(self.nodes, c.nodes)?, a.nodes)?,
            count,
        })
    }

    /// A CASE without ELSE.
    pub(crate) fn ended(self) -> Result<RawExpr, NoMemory>
        ensures { IfOk result (λ e. tree_of e ≡ Case (branches_of self)) }
    {
        RawExpr::over(self.nodes, RawNode::Case(self.count))
    }
}

// A list of so many expressions holds as many nodes at least, so no memory holds one whose length is out of range.
fn sum(count: usize, more: usize) -> Result<usize, NoMemory>
    ensures { IfOk result (λ all. all ≡ count + more) }
{
    count.checked_add(more).ok_or(NoMemory)
}
