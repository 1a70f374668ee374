use crate::edition::Edition;
use lk_state::OpenFault;
use std::sync::Arc;

/// The server behind its readers: the present edition, and the store that is told of each load and of each check that builds
/// before any reader sees it. (lookd)
#[derive(Drop)]
pub struct Office<K> {
    pub(crate) edition: Arc<Edition>,
    pub(crate) keeper: K,
}

/// Why an office did not open, and its store, handed back.
#[derive(Drop)]
pub struct Unopened<K> {
    pub fault: OpenFault,
    pub keeper: K,
}
