use lk_params::Finding;
use lk_types::Trigger;
use lk_val::Text;

/// A datagroup, as it is declared. (Looker, LookML reference: datagroup)
#[derive(Drop)]
pub struct DeclaredDatagroup {
    pub name: Text,
    /// What it watches, by the numbers of the schema's tables and columns.
    pub trigger: Option<Trigger>,
    /// How long after a build the next is due, in seconds.
    pub interval: Option<i64>,
    /// The first fault of its own parameters.
    pub first: Option<Finding>,
}
