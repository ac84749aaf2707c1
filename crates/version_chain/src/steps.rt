//! How many timestamps the searches of a chain have read.
ghost use Rattle.std.specs.Prelude.{◌≡◌, ℕ, suc};
ghost use Rattle.std.specs.Borrow.{ftrue};

use std::marker::Model;

/// A count that proofs alone read, as `count`. It takes no bytes at run time.
#[derive(Drop)]
pub struct Steps {
    pub ghost count: { ℕ },
}

impl Model for Steps {
    ghost also_owns = { λ _. ftrue };
}

impl Steps {
    pub fn new() -> Steps
        ensures { result.count ≡ 0 }
    {
        Steps {}
    }

    pub(crate) fn after(before: &Steps) -> Steps
        ensures { result.count ≡ suc before.now.count }
    {
        let _ = before;
        Steps {}
    }
}
