//! One that leads, and others.

/// One that leads, and others beside it: jobs, the threads that do them, or the results that they gave.
#[derive(Drop)]
pub struct Team<K, J> {
    pub lead: K,
    pub others: Vec<J>,
}
