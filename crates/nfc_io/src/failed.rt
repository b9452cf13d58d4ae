//! The one way in which a read or a write fails.

use thiserror::Error;

/// A call failed. The count of faults of the source or the sink says that it did; no cause is kept.
#[derive(Clone, Copy, Debug, PartialEq, Eq, Error)]
#[error("the read or the write failed")]
pub struct Failed;
