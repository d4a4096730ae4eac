// A row of a wiring.
use block::Settings;
use values::Source;

// A block's settings, its active source, its four pins and the terminal of its reset, if it has one.
#[derive(Clone, Copy)]
pub struct Row {
    pub settings: Settings,
    pub act: Source,
    pub pins: [Source; 4],
    pub reset: Option<u8>,
}
