ghost use Rattle.std.specs.Prelude.{ℕ, List, [], Option};
ghost use Rattle.lk_grammar.specs.Places.{IsViable, IsPlace, place_from, Follows};

/// A machine that reads a text byte by byte: the state after a byte, or none where no text goes on with it, and
/// the texts that a state still admits.
pub trait Machine {
    ghost step: { Self → ℕ → Option Self };

    ghost is_text: { Self → List ℕ → Type 0 };

    ghost follows: { Follows step is_text };
}

/// From a state that admits some text, the number of bytes that a machine goes on over is the place of the text:
/// the length of the longest prefix that begins some admitted text. A law: it computes nothing.
pub fn machines_find_places<M: Machine>()
    ensures { (state : M) (text : List ℕ) → IsViable (M.is_text state) [] → IsPlace (M.is_text state) text (place_from M.step state text) }
{}
