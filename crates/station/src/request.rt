// The calls of a list that a station runs.

#[derive(Clone, Copy)]
pub enum Request {
    // One scan of an image, so many milliseconds after the last.
    Scan { image: [u8; 8], elapsed: u32 },
    Halt,
}
