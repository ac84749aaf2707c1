//! Command lines, their jobs and what they leave.

mod command_lines;
mod doing;
mod hints;
