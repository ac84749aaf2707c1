//! Which program this is.

/// The program's version, as the Rust wrapper's, and the logic by which it is proved. `tools/lint.py` looks that both are
/// so. A kit of that logic may have another name on another machine.
pub(crate) const VERSION: &str = "0.1.0
proved with Rattle of logic dac8208d650f15bf";
