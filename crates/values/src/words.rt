// The words of `kind=`, and the settings 0 and 1.
ghost use Rattle.values.specs.Parsed.{Parsed};
ghost use Rattle.values.specs.Written.{kind_word, flag_text, Any};

use block::Kind;

pub fn parse_kind(s: &[u8]) -> Option<Kind>
    ensures { Parsed Any kind_word s.now result }
{
    match s {
        b"estop" => Some(Kind::Estop),
        b"and" => Some(Kind::And),
        b"or" => Some(Kind::Or),
        _ => None,
    }
}

pub fn parse_flag(s: &[u8]) -> Option<bool>
    ensures { Parsed Any flag_text s.now result }
{
    match s {
        [b'0'] => Some(false),
        [b'1'] => Some(true),
        _ => None,
    }
}
