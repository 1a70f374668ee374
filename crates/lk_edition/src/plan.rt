ghost use Rattle.std.specs.Prelude.{◌≡◌, IfOk};
ghost use Rattle.std.specs.Arc.{arc_value};

use crate::edition::Edition;
use lk_ledger::Command;
use lk_types::Reply;
use lk_val::NoMemory;
use std::marker::Model;
use std::sync::Arc;

/// What a load comes to that is not refused.
#[derive(Drop)]
pub enum LoadPlan {
    /// A load of this id is kept: its reply, and nothing more.
    Kept(Reply),
    /// A load to be committed.
    New(Pending),
}

/// What a check comes to that is not refused.
#[derive(Drop)]
pub enum CheckPlan {
    /// No datagroup triggers: the reply, and nothing more.
    Nothing(Reply),
    /// Builds to be committed.
    New(Pending),
}

// What the store is to be told.
#[derive(Drop)]
pub(crate) enum ToSave {
    Load(Command),
    Check(u64),
}

/// An accepted load or check that is still to be committed: the next edition, what the store is told, and the reply.
#[derive(Drop)]
pub struct Pending {
    pub(crate) edition: Arc<Edition>,
    pub(crate) save: ToSave,
    pub(crate) reply: Reply,
}

impl Model for Pending {
    ghost use Rattle.std.specs.Arc.{arc_value};
    ghost use Rattle.lk_edition.specs.Editions.{save_of};
    ghost use Rattle.lk_edition.specs.Plans.{Planned};

    ghost Value = { Planned };

    ghost use Rattle.std.specs.Coded.{codes};
    ghost use Rattle.lk_types.specs.FormulaCode.{coded_formula};
    ghost use Rattle.lk_types.specs.CalculationCode.{coded_calculation};

    ghost coded = { Prim.hlevel (codes, coded_formula, coded_calculation) };

    ghost view = { λ pending. record {
      standing = arc_value pending.edition;
      save = save_of pending.save;
      reply = pending.reply;
    } };
}

impl Pending {
    /// The next edition, shared.
    pub fn edition(&self) -> Result<Arc<Edition>, NoMemory>
        ensures { IfOk result (λ edition. arc_value edition ≡ self.now.standing) }
    {
        Ok(Arc::try_clone(&self.edition)?)
    }
}
