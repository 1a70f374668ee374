ghost use Rattle.std.specs.Prelude.{◌≡◌, ℕ, IfOk, List, Some, option_map, true};
ghost use Rattle.lk_sql_tree.specs.Texts.{text_then};
ghost use Rattle.lk_sql_tree.specs.Trees.{Sql};
ghost use Rattle.lk_sql_read.specs.Expressions.{IsRead, is_clear};
ghost use Rattle.lk_sql_read.specs.Machine.{read, start};

use crate::reader::Reader;
use lk_sql_tree::{SqlExpr, SqlNode};
use lk_val::{Items, NoMemory};
use std::alloc::Global;

/// The expression in front of a text, and what is behind it. A printed expression is read wherever a bracket, a comma, a
/// space, the end of a line or nothing is behind it; what another text reads as is not said.
pub fn read_expression(alloc: Global, text: &[u8]) -> Result<Option<(SqlExpr, &[u8])>, NoMemory>
    ensures every { IfOk result (λ found. (e : Sql) (rest : List ℕ) → IsRead e → is_clear rest ≡ true
        → text.now ≡ text_then e rest → option_map {U = Sql × List ℕ} (λ first. (first.0, first.1.now)) found ≡ Some (e, rest)) }
{
    let Some((nodes, rest)) = read_nodes(alloc, text)? else {
        return Ok(None);
    };
    match SqlExpr::from_nodes(alloc, nodes)? {
        Some(expression) => Ok(Some((expression, rest))),
        None => Ok(None),
    }
}

// The nodes of the expression in front of a text, and what is behind it.
#[tactic(auto, using(crate::proofs::StepLaws::done))]
fn read_nodes(alloc: Global, text: &[u8]) -> Result<Option<(Items<SqlNode>, &[u8])>, NoMemory>
    ensures { IfOk result (λ found. option_map (λ first. (first.0, first.1.now)) found ≡ read text.now start text.now) }
{
    let mut reader = Reader::new(alloc);
    let mut rest = text;
    for _byte in text {
        if reader.is_done() {
            return Ok(Some((reader.nodes, rest)));
        }
        match reader.next(alloc, rest)? {
            Some((next, behind)) => {
                reader = next;
                rest = behind;
            }
            None => return Ok(None),
        }
    }
    if reader.is_done() {
        return Ok(Some((reader.nodes, rest)));
    }
    Ok(None)
}
