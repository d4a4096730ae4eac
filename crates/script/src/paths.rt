// What may name a file.
ghost use Rattle.std.specs.Prelude.{Decides};
ghost use Rattle.script.specs.Paths.{Path};

pub(crate) fn is_path(s: &[u8]) -> bool
    ensures { Decides result (Path s.now) }
{
    !s.is_empty() && s.iter().all(|b| *b != b'\n' && *b != b'\r')
}
