//! Which version of the product the library is of.
ghost use Rattle.std.specs.Prelude.{◌≡◌};

/// The product's version, a byte for each of its numbers: 0.1.0. `command_line` has it as text.
const VERSION: u32 = 0x000100;

/// Tells the version: 65536 times the first of its numbers, 256 times the second, and the third.
#[unsafe(no_mangle)]
pub extern "C" fn ripsawbean_version() -> u32
    ensures { result ≡ 256 }
{
    VERSION
}
