// A reader over the bytes of a sheet, which hands out its lines with their numbers.
// No file of specs/ that names the record is imported here.
ghost use Rattle.std.specs.Prelude.{◌+◌, ◌≤◌, length};
ghost use Rattle.sheet.specs.Limits.{most_bytes};

pub mod ops;

// What follows the key of a line, with the line's number.
#[derive(Clone, Copy)]
pub struct Part<'a> {
    pub line: u16,
    pub bytes: &'a [u8],
}

// `line` lines have been handed out, and `rest` is to come.
#[derive(Drop)]
pub struct Reader<'a> {
    rest: &'a [u8],
    line: u16,
    ghost few: { line + length rest.now ≤ most_bytes },
}
