// The word that a command's line begins with.
ghost use Rattle.values.specs.Parsed.{Parsed};
ghost use Rattle.values.specs.Written.{Any};
ghost use Rattle.script.specs.Keywords.{keyword_text};

#[derive(Clone, Copy)]
pub(crate) enum Keyword {
    Load,
    Scan,
    Halt,
    Report,
    Needs,
    Blocks,
    Bytes,
}

// A function and no `TryFrom`, as the readers of values are.
pub(crate) fn parse_keyword(s: &[u8]) -> Option<Keyword>
    ensures { Parsed Any keyword_text s.now result }
{
    match s {
        b"load" => Some(Keyword::Load),
        b"scan" => Some(Keyword::Scan),
        b"halt" => Some(Keyword::Halt),
        b"report" => Some(Keyword::Report),
        b"needs" => Some(Keyword::Needs),
        b"blocks" => Some(Keyword::Blocks),
        b"bytes" => Some(Keyword::Bytes),
        _ => None,
    }
}
