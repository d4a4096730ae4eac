// Writing a row report into a lent place.
ghost use Rattle.std.specs.Prelude.{◌≡◌, ◌+◌, ◌<◌, ◌≤◌, ◌++◌, length, codes};
ghost use Rattle.block.specs.Of.{meaning};
ghost use Rattle.station.specs.Reads.{report_place};
ghost use Rattle.station.specs.Reports.{flag, hex_digit, hex4, report_line, report_text, Written};
ghost use Rattle.arrayvec.specs.ArrayVec.{array_vec_len};
ghost use Rattle.values.specs.Written.{two};

use arrayvec::ArrayVec;
use block::Block;

// The bytes of the longest report.
const LONGEST: usize = 54;

// By hand, as no contract says that `write!` into a text of fixed room succeeds where the text fits, and a heap is barred.
// A digit of a hexadecimal number.
fn hex_digit_of(n: u16) -> u8
    requires { n < 16 }
    ensures { result ≡ hex_digit n }
{
    if n < 10 {
        b'0' + n as u8
    } else {
        b'A' + (n - 10) as u8
    }
}

// Four hexadecimal digits.
fn hex_digits(n: u16) -> [u8; 4]
    ensures { result ≡ hex4 n }
{
    [
        hex_digit_of(n / 4096 % 16),
        hex_digit_of(n / 256 % 16),
        hex_digit_of(n / 16 % 16),
        hex_digit_of(n % 16),
    ]
}

// Two decimal digits.
fn two_digits(n: u8) -> [u8; 2]
    requires { n < 100 }
    ensures { result ≡ two n }
{
    [b'0' + n / 10, b'0' + n % 10]
}

fn flag_digit(on: bool) -> &'static [u8]
    ensures { result.now ≡ flag on }
{
    if on { b"1" } else { b"0" }
}

// Adds one line of the report: its key, its value and LF.
fn push_line(text: &mut ArrayVec<u8, LONGEST>, key: &[u8], value: &[u8])
    requires { array_vec_len text.old + (length key.now + (length value.now + 1)) ≤ report_place }
    ensures { text.new.items ≡ text.old.items ++ report_line key.now value.now }
{
    text.try_extend_from_slice(key).unwrap();
    text.try_extend_from_slice(value).unwrap();
    text.push(b'\n');
}

// The report of a row.
fn report_of<B: Block>(row: u8, block: &B) -> ArrayVec<u8, LONGEST>
    requires { row < 100 }
    ensures { result.items ≡ report_text (meaning B.Block) row block.now }
{
    let code = block.code();
    let mut text = ArrayVec::new();
    push_line(&mut text, b"row=", &two_digits(row));
    push_line(&mut text, b"code=", &hex_digits(code.number()));
    push_line(&mut text, b"mode=", block.mode().word().as_bytes());
    push_line(&mut text, b"ready=", flag_digit(code.is_ready()));
    push_line(&mut text, b"error=", flag_digit(code.is_error()));
    push_line(&mut text, b"request=", flag_digit(block.requests_reset()));
    text
}

// Writes the report of a row, and answers its length.
pub(crate) fn write_report<B: Block>(row: u8, block: &B, place: &mut [u8]) -> usize
    requires row_bound { row < 100 }
    requires in_bounds { report_place ≤ length place.old }
    ensures written { Written (report_text (meaning B.Block) row block.now) place.old place.new }
    ensures length { result ≡ length (report_text (meaning B.Block) row block.now) }
{
    let text = report_of(row, block);
    place[..text.len()].copy_from_slice(text.as_slice());
    text.len()
}
