// What a desk is asked for.
use script::Command;

// A call of the station.
#[derive(Drop)]
pub enum Call {
    // Loads the sheet of these bytes.
    Load(Vec<u8>),
    Command(Command),
}

#[derive(Drop)]
pub enum Request {
    Call(Call),
    // From now on a call is lent so many blocks.
    Blocks(u8),
    // From now on a call is lent so many output bytes.
    Bytes(u8),
}
