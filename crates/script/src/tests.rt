// Lines that a person would check by hand.
use crate::command::{Command, Line};
use crate::lines::{Script, next_line};
use crate::read::read_line;
use std::test::Fail;

fn is_command(line: &[u8]) -> bool {
    read_line(line).is_some()
}

#[test]
fn scan_has_its_bytes_first_byte_first(rt: HostRuntime) -> Result<(), Fail> {
    let Some(Line::Command(Command::Scan { image, elapsed })) = read_line(b"scan 0aFf 0012") else {
        return Err(Fail::new("no scan"));
    };
    assert!(rt; image.bytes() == [10, 255].as_slice());
    assert!(rt; elapsed == 12);
    Ok(())
}

#[test]
fn report_has_a_size_where_none_is_said(rt: HostRuntime) -> Result<(), Fail> {
    let Some(Line::Command(Command::Report { row, size })) = read_line(b"report 7") else {
        return Err(Fail::new("no report"));
    };
    assert!(rt; row == 7 && size == 54);
    Ok(())
}

#[test]
fn limits_are_kept(rt: HostRuntime) {
    assert!(rt; is_command(b"blocks 40") && !is_command(b"blocks 41"));
    assert!(rt; is_command(b"report 0 64") && !is_command(b"report 0 65"));
    assert!(rt; is_command(b"needs 4294967295") && !is_command(b"needs 4294967296"));
    assert!(rt; is_command(b"scan - 1") && !is_command(b"scan  1"));
}

#[test]
fn spaces_and_returns_are_exact(rt: HostRuntime) {
    assert!(rt; !is_command(b"halt ") && !is_command(b" halt") && !is_command(b"halt\r"));
    assert!(rt; !is_command(b"\r") && is_command(b"#\r") && is_command(b""));
    assert!(rt; is_command(b"load a/b") && !is_command(b"load a\r") && !is_command(b"load "));
}

#[test]
fn last_line_may_lack_its_line_feed(rt: HostRuntime) -> Result<(), Fail> {
    let (first, rest) = next_line(b"halt\nbytes 2").ok_or("no line")?;
    let (second, left) = next_line(rest).ok_or("no line")?;
    assert!(rt;
        first == b"halt".as_slice() && second == b"bytes 2".as_slice() && next_line(left).is_none()
    );
    Ok(())
}

#[test]
fn script_gives_its_lines_in_order(rt: HostRuntime) {
    let mut script = Script(b"halt\n\nbytes 2");
    assert!(rt; script.next() == Some(b"halt".as_slice()));
    assert!(rt; script.next() == Some(b"".as_slice()));
    assert!(rt; script.next() == Some(b"bytes 2".as_slice()) && script.next().is_none());
}
