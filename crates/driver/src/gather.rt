// The requests of a script.
use anyhow::Context;
use desk::{Call, Request};
use script::{Line, Script, read_line};
use std::alloc::AllocError;
use std::fs;

// The bytes of the sheet at a path.
fn read_sheet(rt: &HostRuntime, path: &[u8]) -> anyhow::Result<Vec<u8>> {
    let path = std::str::from_utf8(path)?;
    Ok(fs::read(rt, path)?)
}

// What a line asks for; none where it is passed over.
fn request_of(rt: &HostRuntime, line: &[u8]) -> anyhow::Result<Option<Request>> {
    let line = read_line(line).context("a line of the script is no command")?;
    Ok(match line {
        Line::Nothing => None,
        Line::Load(path) => Some(Request::Call(Call::Load(read_sheet(rt, path)?))),
        Line::Command(command) => Some(Request::Call(Call::Command(command))),
        Line::Blocks(count) => Some(Request::Blocks(count)),
        Line::Bytes(count) => Some(Request::Bytes(count)),
    })
}

// Adds the requests up to the end of a script, or up to the line that ends the run, and says then what is wrong there.
// Where there is no memory for the list, nothing is to be played.
pub fn gather(
    rt: &HostRuntime,
    script: &[u8],
    requests: &mut Vec<Request>,
) -> Result<anyhow::Result<()>, AllocError> {
    for line in Script(script) {
        match request_of(rt, line) {
            Ok(Some(request)) => requests.push(request)?,
            Ok(None) => {}
            Err(fault) => return Ok(Err(fault)),
        }
    }
    Ok(Ok(()))
}
