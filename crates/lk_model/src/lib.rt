//! The first fault of the objects of a project, and the model of what they say. The schema that it is resolved over is read by
//! `read_schema`.
#![tactic(auto)]

mod counts;
mod faults;
mod model;
mod names;
mod same;
mod view_kinds;

pub use counts::test_counts;
pub use faults::test_objects;
pub use lk_schema::read_schema;
pub use model::model_of;
pub use names::fields_of;
pub use view_kinds::ViewKinds;
