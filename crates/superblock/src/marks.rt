//! The marks between which a superblock stands. They tell the format of its set.
ghost use Rattle.std.specs.Prelude.{◌≡◌};
ghost use Rattle.layout_map.specs.declared.format.Format.{Format};
ghost use Rattle.superblock.specs.Spelling.{begin_mark, end_mark, format_digit};

use layout_map::Format;

// The first 8 bytes of the sector of a superblock of a set of this format.
pub(crate) fn begin_mark_of(format: Format) -> [u8; 8]
    ensures { result ≡ begin_mark format }
{
    match format {
        Format::One => *b"RAID5JV1",
        Format::Two => *b"RAID5JV2",
    }
}

// The last 8 bytes of the sector of a superblock of a set of this format.
pub(crate) fn end_mark_of(format: Format) -> [u8; 8]
    ensures { result ≡ end_mark format }
{
    match format {
        Format::One => *b"1VJ5DIAR",
        Format::Two => *b"2VJ5DIAR",
    }
}

// The format whose marks have this digit, if any.
pub(crate) fn format_of_digit(digit: u8) -> Option<Format>
    ensures { (format : Format) → digit ≡ format_digit format → result ≡ Some format }
{
    match digit {
        b'1' => Some(Format::One),
        b'2' => Some(Format::Two),
        _ => None,
    }
}
