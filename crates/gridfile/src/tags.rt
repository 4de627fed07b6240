// The tags of the fields, in the order in which they stand in a file: numbers and no enum, as each is
// only compared with a byte, or stored as one.

pub const FLAGS: u8 = 0x01;

pub const SIZE: u8 = 0x02;

pub const NUMBERS: u8 = 0x03;

pub const TARGETS: u8 = 0x04;

pub const OBSTACLES: u8 = 0x05;

pub const TIMES: u8 = 0x06;

pub const VALUES: u8 = 0x07;

// And those of an answer.
pub const STATUS: u8 = 0x10;

pub const INDEX: u8 = 0x11;

pub const TAKES: u8 = 0x12;

pub const GRID: u8 = 0x13;
