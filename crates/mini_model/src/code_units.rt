// UTF-16 units that have a meaning in a raw text.
pub const CARRIAGE_RETURN: u16 = 0x0D;

pub const DOLLAR: u16 = b'$' as u16;

pub const DIGIT_ZERO: u16 = b'0' as u16;

pub const BACKSLASH: u16 = b'\\' as u16;

pub const BACKTICK: u16 = b'`' as u16;

pub const LETTER_B: u16 = b'b' as u16;

pub const LETTER_F: u16 = b'f' as u16;

pub const LETTER_N: u16 = b'n' as u16;

pub const LETTER_R: u16 = b'r' as u16;

pub const LETTER_T: u16 = b't' as u16;

pub const LETTER_U: u16 = b'u' as u16;

pub const LETTER_V: u16 = b'v' as u16;

pub const LETTER_X: u16 = b'x' as u16;

pub const LEFT_BRACE: u16 = b'{' as u16;

pub const RIGHT_BRACE: u16 = b'}' as u16;
