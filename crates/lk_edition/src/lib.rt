//! Editions of a server: tables at a snapshot with the model, the users and what is kept of builds; the office that opens them, plans
//! loads and checks, and saves these.
#![tactic(auto)]

mod call;
mod calls;
mod checking;
mod edition;
mod laws;
mod loading;
mod office;
mod opening;
mod plan;
mod version;

pub use call::LoadCall;
pub use edition::{Edition, editions_are_shared};
pub use laws::{
    checks_keep_the_history, editions_in_a_list_stand, loads_keep_the_history,
    openings_begin_a_history,
};
pub use office::{Office, Unopened};
pub use plan::{CheckPlan, LoadPlan, Pending};
