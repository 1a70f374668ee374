ghost use Rattle.std.specs.Prelude.{◌≤◌};

/// A number of workers, 1 to 16.
#[derive(Clone, Copy)]
pub struct Workers {
    pub count: usize,
    pub ghost few: { (1 ≤ count) × (count ≤ 16) },
}
