ghost use Rattle.std.specs.Prelude.{◌≡◌, ◌↔◌, ℕ, ℤ, List, None, Some, false, true};
ghost use Rattle.lk_types.specs.Tables.{Rows};
ghost use Rattle.lk_types.specs.declared.model.Datagroup.{Datagroup};
ghost use Rattle.lk_types.specs.declared.model.Trigger.{Trigger};
ghost use Rattle.lk_semantics.specs.Resolved.{is_interval};
ghost use Rattle.lk_trigger.specs.Builds.{built_at, does_trigger, watched};
ghost use Rattle.lk_trigger.specs.declared.build.Build.{Build};

/// A datagroup without an interval triggers just where what it watches is not what its last build kept. A law: it computes nothing.
pub fn changed_values_trigger()
    ensures { (tables : List Rows) (now : ℤ) (build : Build) (name : List ℕ) (trigger : Trigger)
        → (does_trigger tables now build (record { name = name; trigger = Some trigger; interval = None }) ≡ false)
        ↔ (build.value ≡ watched tables now trigger) }
{}

/// A datagroup doesn't trigger over the tables and at the moment at which it was built, so that a check that follows another at
/// once builds nothing. A law: it computes nothing.
pub fn built_datagroups_rest()
    ensures { (tables : List Rows) (number : ℕ) (now : ℤ) (g : Datagroup) → is_interval g.interval ≡ true
        → does_trigger tables now (built_at tables number now g) g ≡ false }
{}
