// What the two copies hold, and what is known of them.

use atomic_table::{Join, Split};
use crossbeam_utils::rule::{Outcome, Protocol};
use left_right::Absorb;
use left_right::reader::Reader;
use left_right::writer::Writer;
use lk_front::{Entry, Front, Shelves};
use std::alloc::AllocError;
use std::marker::Model;
use std::sync::Arc;

/// What readers are shown: a value, beside the list that ends in it. Contracts see the list.
#[derive(Drop)]
pub struct Stand<T: Entry, J: Shelves> {
    pub(crate) value: Arc<T>,
    pub(crate) front: Front<T, J>,
}

impl<T: Entry, J: Shelves> Model for Stand<T, J> {
    ghost use Rattle.std.specs.Prelude.{List};
    ghost use Rattle.std.specs.Arc.{arc_value};
    ghost use Rattle.lk_front.specs.Chains.{EndsIn};

    ghost Value = { List T };

    ghost view = { λ stand. stand.front };

    ghost invariant = { λ stand. EndsIn stand.front (arc_value stand.value) };
}

/// A copy takes in the next stand by becoming it. The state that both copies come to is how long the list is.
impl<T: Entry, J: Shelves> Absorb<Stand<T, J>> for Stand<T, J> {
    ghost use Rattle.std.specs.Prelude.{length};

    type State = u64;

    ghost state = { λ stand. length stand };

    ghost applied = { λ count next. length next };

    fn absorb_first(
        &mut self,
        operation: &Stand<T, J>,
        _other: &Stand<T, J>,
    ) -> Result<(), AllocError> {
        let value = Arc::try_clone(&operation.value)?;
        *self = Stand {
            value,
            front: operation.front.again(),
        };
        Ok(())
    }

    fn absorb_second(
        &mut self,
        operation: Stand<T, J>,
        _other: &Stand<T, J>,
    ) -> Result<(), Stand<T, J>> {
        *self = operation;
        Ok(())
    }
}

/// What the writer and each reader know is a number of values, and the list that is shown has no fewer. (lookd)
pub struct Law;

impl<T: Entry, J: Shelves> Protocol<Stand<T, J>, u64> for Law {
    ghost use Rattle.std.specs.Prelude.{length};
    ghost use Rattle.lk_shelf.specs.Knowing.{NoneKnowsMore};

    ghost holds = { λ stand knowing. NoneKnowsMore (length stand) knowing };

    ghost first = { 0 };
}

// A step after which its end knows how long the shown list is.
pub(crate) struct Look;

impl<T: Entry, J: Shelves> Outcome<Stand<T, J>, u64> for Look {
    ghost use Rattle.std.specs.Prelude.{length};
    ghost use Rattle.lk_shelf.specs.Knowing.{Looks};

    ghost then = { λ known before after knows. Looks known (length before) (length after) knows };
}

// What the writer knows, told to a reader that knows nothing yet.
pub(crate) struct Told;

impl Split<u64> for Told {
    ghost left = { λ known. known };

    ghost right = { λ known. known };
}

impl Join<u64> for Told {
    ghost both = { λ known told. told };

    ghost spent = { 0 };
}

pub(crate) type ShelfReader<T, J> = Reader<Stand<T, J>, u64, Law>;

pub(crate) type ShelfWriter<T, J> = Writer<Stand<T, J>, Stand<T, J>, u64, Law>;
