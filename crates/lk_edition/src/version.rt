// Editions as readers see them, one behind another.

use crate::edition::Edition;
use lk_front::Entry;

impl Entry for Edition {
    ghost use Rattle.lk_edition.specs.Versions.{Follows, Opens};

    ghost begins = { Opens };

    ghost follows = { Follows };
}
