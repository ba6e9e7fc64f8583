// The texts of strings: for display, for debugging, and their bytes as hexadecimal.
pub(crate) mod debug_text;
pub(crate) mod display_text;
pub(crate) mod hex_dump;
