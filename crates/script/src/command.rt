// What a line of a script says.
use crate::image::Image;

// A call that needs no file.
#[derive(Clone, Copy)]
pub enum Command {
    Scan { image: Image, elapsed: u32 },
    Halt,
    Report { row: u32, size: u8 },
    Needs { output: u32 },
}

#[derive(Clone, Copy)]
pub enum Line<'a> {
    // An empty line, or a remark. A case and no second `Option` around the line: such a line is right, and says nothing.
    Nothing,
    // The path of the sheet to load.
    Load(&'a [u8]),
    Command(Command),
    // From now on so many blocks are lent.
    Blocks(u8),
    // From now on so many output bytes are lent.
    Bytes(u8),
}
