ghost use Rattle.std.specs.Prelude.{◌≡◌, ℕ};
ghost use Rattle.lk_postfix.specs.Postfix.{depth_after, is_whole};

/// A node of a tree, which stands behind its operands in a list of nodes.
pub trait TakesOperands {
    ghost takes: { Self → ℕ };

    /// How many operands the node takes.
    fn arity(&self) -> usize
        ensures { result ≡ takes self.now };
}

/// Whether the nodes are those of one tree: each has its operands, and nothing is left over.
pub fn is_whole<N: TakesOperands>(nodes: &[N]) -> bool
    ensures { result ≡ is_whole N.takes nodes.now }
{
    match depth_after(nodes) {
        Some(depth) => depth == 1,
        None => false,
    }
}

// How many trees the nodes are; none where a node has too few operands.
fn depth_after<N: TakesOperands>(nodes: &[N]) -> Option<usize>
    ensures { result ≡ depth_after N.takes 0 nodes.now }
{
    let mut depth = 0usize;
    for node in nodes {
        match depth.checked_sub(node.arity()) {
            Some(below) => depth = below + 1,
            None => return None,
        }
    }
    Some(depth)
}
