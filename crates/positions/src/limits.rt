// The limits, each named once.

// lines on a plate
pub const MOST_LINES: usize = 8;
// states of a built plate
pub const MOST_STATES: usize = 64;
// classes of an alphabet
pub const MOST_CLASSES: usize = 256;
// bytes of a line
pub const MOST_BYTES: usize = 1024;
// levels that the brackets of a line open
pub const MOST_LEVELS: usize = 16;
// symbols of a line
pub const MOST_SYMBOLS: usize = 63;
// positions of a line, its end mark included
pub const MOST_POSITIONS: usize = 64;
// the highest code
pub const MOST_CODE: usize = 65535;
// the mark of a line's first and last code
pub const NO_MARK: u16 = 65535;
// symbols of an extent
pub const LONGEST_EXTENT: usize = 32768;
