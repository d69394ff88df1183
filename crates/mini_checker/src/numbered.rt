//! The row of a number.

ghost use Rattle.std.specs.Prelude.{◌≡◌};
ghost use Rattle.mini_log.specs.RowStep.{row_numbered as row_of_number};

use mini_log::row::LogRow;

/// The row of this number, if it is one of a log.
pub fn row_numbered(number: u32) -> Option<LogRow>
    ensures { result ≡ row_of_number number }
{
    match number {
        1 => Some(LogRow::Row1),
        3 => Some(LogRow::Row3),
        7 => Some(LogRow::Row7),
        12 => Some(LogRow::Row12),
        13 => Some(LogRow::Row13),
        15 => Some(LogRow::Row15),
        19 => Some(LogRow::Row19),
        23 => Some(LogRow::Row23),
        33 => Some(LogRow::Row33),
        34 => Some(LogRow::Row34),
        39 => Some(LogRow::Row39),
        40 => Some(LogRow::Row40),
        41 => Some(LogRow::Row41),
        42 => Some(LogRow::Row42),
        49 => Some(LogRow::Row49),
        54 => Some(LogRow::Row54),
        55 => Some(LogRow::Row55),
        58 => Some(LogRow::Row58),
        60 => Some(LogRow::Row60),
        61 => Some(LogRow::Row61),
        65 => Some(LogRow::Row65),
        66 => Some(LogRow::Row66),
        79 => Some(LogRow::Row79),
        82 => Some(LogRow::Row82),
        _ => None,
    }
}
