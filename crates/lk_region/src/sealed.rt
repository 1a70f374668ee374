ghost use Rattle.std.specs.Prelude.{◌≡◌, ◌<◌, length};
ghost use Rattle.lk_region.specs.Regions.{text_at};

use crate::mark::Mark;
use crate::texts::Texts;
use std::marker::Model;

/// The texts of a region to which none is added any more, without what finds the mark of a text. Clauses see the list of the
/// texts. (lookd)
#[derive(Drop)]
pub struct SealedRegion {
    pub(crate) texts: Texts,
}

impl Model for SealedRegion {
    ghost use Rattle.std.specs.Prelude.{List, ℕ};

    ghost Value = { List (List ℕ) };

    ghost view = { λ region. region.texts };
}

impl SealedRegion {
    /// The text of a mark.
    pub fn text(&self, m: Mark) -> &[u8]
        requires { m.0 < length self.now }
        ensures { result.now ≡ text_at self.now m.0 }
    {
        self.texts.get(m.0 as usize)
    }
}
