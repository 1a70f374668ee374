ghost use Rattle.std.specs.Prelude.{◌≡◌};
ghost use Rattle.lk_sql_tree.specs.SqlNodes.{has_lists};

use crate::node::SqlNode;
use crate::node_text::append_nodes;
use crate::standing::{Standing, standing_made, standing_of_nodes};
use lk_postfix::{append, is_whole};
use lk_val::{Bytes, Items, NoMemory};
use std::alloc::Global;
use std::marker::Model;

/// An expression of SQL. It is kept as the list of its nodes, so that no depth of an expression takes the stack of the
/// machine, and with what it stands over. Clauses see it as its tree.
#[derive(Drop)]
pub struct SqlExpr {
    nodes: Items<SqlNode>,
    standing: Standing,
}

impl Model for SqlExpr {
    ghost use Rattle.std.specs.Prelude.{◌≡◌, true};
    ghost use Rattle.lk_sql_tree.specs.Trees.{Sql};

    ghost Value = { Sql };

    ghost use Rattle.lk_sql_tree.specs.SqlCode.{coded_sql};
    ghost use Rattle.lk_sql_tree.specs.SqlNodes.{arity, has_lists, sql_of};
    ghost use Rattle.lk_postfix.specs.Postfix.{is_whole};
    ghost use Rattle.lk_sql_tree.specs.Standings.{standing_of};

    ghost coded = { coded_sql };

    ghost view = { λ e. sql_of e.nodes };

    ghost invariant = { λ e. (is_whole arity e.nodes ≡ true) × (has_lists e.nodes ≡ true) × (e.standing ≡ standing_of (sql_of e.nodes)) };
}

impl SqlExpr {
    ghost use Rattle.std.specs.Prelude.{◌≡◌, ◌&&◌, ◌∷◌, ◌++◌, [], true, IfOk, IfSome, OnOk, is_some};
    ghost use Rattle.lk_sql_tree.specs.SqlNodes.{arity, has_list, has_lists, made, sql_of};
    ghost use Rattle.lk_sql_tree.specs.Forms.{over_groups, over_rows};
    ghost use Rattle.lk_sql_tree.specs.NodeTexts.{text_of};
    ghost use Rattle.lk_postfix.specs.Postfix.{is_whole};

    /// The expression of a list of nodes, each behind its operands; none where the list is not that of one expression,
    /// or where a list has no item, a call no argument, or a CASE no branch.
    pub fn from_nodes(alloc: Global, nodes: Items<SqlNode>) -> Result<Option<SqlExpr>, NoMemory>
        ensures some { IfOk result (λ e. is_some e ≡ (is_whole arity nodes && has_lists nodes)) }
        ensures value { IfOk result (λ e. IfSome e (λ e. e ≡ sql_of nodes)) }
    {
        if !is_whole(nodes.as_slice()) || !have_lists(nodes.as_slice()) {
            return Ok(None);
        }
        let standing = standing_of_nodes(alloc, nodes.as_slice())?;
        Ok(Some(SqlExpr { nodes, standing }))
    }

    /// The expression of a node without operands.
    pub fn leaf(alloc: Global, node: SqlNode) -> Result<SqlExpr, NoMemory>
        requires operands { arity node ≡ 0 }
        requires list { has_list node ≡ true }
        ensures { IfOk result (λ e. e ≡ made node []) }
    {
        let standing = standing_made(alloc, &node, &[])?;
        let mut nodes = Items::new(alloc);
        nodes.push(node)?;
        Ok(SqlExpr { nodes, standing })
    }

    /// The expression of a node that takes one operand.
    pub fn unary(alloc: Global, node: SqlNode, a: SqlExpr) -> Result<SqlExpr, NoMemory>
        requires operands { arity node ≡ 1 }
        requires list { has_list node ≡ true }
        ensures { IfOk result (λ e. e ≡ made node (a ∷ [])) }
    {
        let standing = standing_made(alloc, &node, &[a.standing])?;
        let mut nodes = a.nodes;
        nodes.push(node)?;
        Ok(SqlExpr { nodes, standing })
    }

    /// The expression of a node that takes two operands.
    pub fn binary(alloc: Global, node: SqlNode, a: SqlExpr, b: SqlExpr) -> Result<SqlExpr, NoMemory>
        requires { arity node ≡ 2 }
        ensures { IfOk result (λ e. e ≡ made node (a ∷ b ∷ [])) }
    {
        let standing = standing_made(alloc, &node, &[a.standing, b.standing])?;
        let mut nodes = append(a.nodes, b.nodes)?;
        nodes.push(node)?;
        Ok(SqlExpr { nodes, standing })
    }

    /// Another expression that is equal, with memory of its own.
    pub fn copy(&self, alloc: Global) -> Result<SqlExpr, NoMemory>
        ensures { IfOk result (λ e. e ≡ self.now) }
    {
        let nodes = self.nodes.copy(alloc)?;
        Ok(SqlExpr {
            nodes,
            standing: self.standing,
        })
    }

    /// The nodes, each behind its operands.
    pub fn nodes(&self) -> &[SqlNode]
        ensures value { sql_of result.now ≡ self.now }
        ensures whole { is_whole arity result.now ≡ true }
        ensures lists { has_lists result.now ≡ true }
    {
        self.nodes.as_slice()
    }

    /// Whether the expression is one over the columns of rows, with no aggregate in it.
    pub fn is_over_rows(&self) -> bool
        ensures { result ≡ over_rows self.now }
    {
        self.standing.rows
    }

    /// Whether the expression is one over aggregates, with no column outside of them.
    pub fn is_over_groups(&self) -> bool
        ensures { result ≡ over_groups self.now }
    {
        self.standing.groups
    }

    /// Adds the text of the expression.
    pub(crate) fn append_to(&self, text: &mut Bytes, alloc: Global) -> Result<(), NoMemory>
        ensures { OnOk result (text.new ≡ text.old ++ text_of self.now) }
    {
        append_nodes(text, alloc, self.nodes())
    }
}

// Whether each list has an item, each call an argument, and each CASE a branch.
fn have_lists(nodes: &[SqlNode]) -> bool
    ensures { result ≡ has_lists nodes.now }
{
    nodes.iter().all(|node| node.has_list())
}
