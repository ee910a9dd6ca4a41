// The memory map: the addresses of an image's code and globals, and of the end of the stack, in bytes.

/// The address of the first word of code.
pub const CODE_FROM: u32 = 0x0001_0000;

/// The address of the first word of globals.
pub const GLOBALS_FROM: u32 = 0x0020_0000;

/// The address after the stack: the stack pointer's initial value.
pub const STACK_TO: u32 = 0x0080_0000;
