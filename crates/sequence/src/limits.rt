// The numbers of a text's layout (specs/Limits.antt), each named once.
pub const LINE_FEED: u8 = b'\n';

// The characters of a line of 32 values
pub const LONGEST: u8 = 64;

// The remainder is that of the division by it
pub const MODULUS: u16 = 255;
