ghost use Rattle.std.specs.Prelude.{◌≡◌, ◌+◌, ℕ, List, Some, map};
ghost use Rattle.lk_postfix.specs.Postfix.{after_nodes, depth_after};

/// What is computed node by node is what a recursion over the trees computes, and a list of nodes leaves what stands
/// below it on the stack. A law, for nodes that are numbers: it computes nothing.
pub fn lists_of_nodes_are_computed()
    ensures mapped { (made means : ℕ → List ℕ → ℕ) (f : ℕ → ℕ) → ((n : ℕ) (ts : List ℕ) → means n (map f ts) ≡ f (made n ts))
        → (stack nodes : List ℕ) → after_nodes (λ n. n) means (map f stack) nodes ≡ map f (after_nodes (λ n. n) made stack nodes) }
    ensures deeper { (k d e : ℕ) (nodes : List ℕ) → depth_after (λ n. n) d nodes ≡ Some e → depth_after (λ n. n) (k + d) nodes ≡ Some (k + e) }
{}
