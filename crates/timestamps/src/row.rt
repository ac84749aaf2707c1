//! Rows: committed versions as a feed tells them.
ghost use Rattle.std.specs.Prelude.{◌≡◌, IfOk};

use crate::key::Key;
use crate::ts::Ts;
use crate::value::Value;
use std::alloc::AllocError;

/// The version of a key that the transaction of a timestamp committed.
#[derive(Debug, Drop, PartialEq, Eq)]
pub struct Row {
    pub ts: Ts,
    pub key: Key,
    /// The value that was written last, or `None` for a delete.
    pub after: Option<Value>,
}

impl Row {
    /// The same row once more.
    pub fn copy(&self) -> Result<Row, AllocError>
        ensures { IfOk result (λ row. row ≡ self.now) }
    {
        Ok(Row {
            ts: self.ts,
            key: self.key.copy()?,
            after: copy_after(&self.after)?,
        })
    }
}

/// The same value once more, where there is one.
pub fn copy_after(after: &Option<Value>) -> Result<Option<Value>, AllocError>
    ensures { IfOk result (λ copy. copy ≡ after.now) }
{
    match after {
        None => Ok(None),
        Some(value) => Ok(Some(value.copy()?)),
    }
}
