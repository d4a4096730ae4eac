// The text of an answer, as the bench prints it.
ghost use Rattle.std.specs.Prelude.{◌≡◌, ◌++◌, Some, Err, IfOk, IfSome, MatchResult, codes};
ghost use Rattle.desk.specs.Answers.{answer_text, hex_text, load_text, outputs_text, refused_text};
ghost use Rattle.station.specs.Refusals.{refusal_number};

use crate::answer::{Answer, Reply};
use sheet::Fault;
use station::{LoadRefusal, Refusal};
use std::alloc::{AllocError, Global};
use std::fmt;

// A refusal as an answer tells it.
#[derive(Clone, Copy)]
struct Refused<R>(R);

// As `refused 22`.
impl fmt::Display for Refused<Refusal> {
    ghost output = { λ r. Some (refused_text (refusal_number r.0)) };

    fn fmt<W: fmt::Write>(&self, f: &mut fmt::Formatter<W>) -> fmt::Result {
        let number = self.0.number();
        write!(f, "refused {number}")
    }
}

// As `refused 14 line 9 wiring`.
impl fmt::Display for Refused<LoadRefusal> {
    ghost output = { λ r. Some (load_text (Err r.0)) };

    fn fmt<W: fmt::Write>(&self, f: &mut fmt::Formatter<W>) -> fmt::Result {
        let number = self.0.number();
        match self.0 {
            LoadRefusal::Lent => write!(f, "refused {number}"),
            LoadRefusal::Sheet(fault) => {
                let line = fault.line();
                let layer = fault.layer();
                write!(f, "refused {number} line {line} {layer}")
            }
        }
    }
}

// Ends a line with the output bytes.
fn with_outputs<D: fmt::Display>(
    heap: Global,
    head: &D,
    outputs: [u8; 2],
) -> Result<Vec<u8>, AllocError>
    ensures { IfOk result (λ v. IfSome (D.output head.now) (λ t. v.items ≡ t ++ outputs_text outputs)) }
{
    let [first, second] = outputs;
    Ok(format!(in heap; "{head} outputs={first:02X}{second:02X}\n")?.into_bytes())
}

// A word where a call was accepted, or how it was refused.
fn call_line<E: fmt::Display + Drop>(
    heap: Global,
    word: &str,
    res: Result<(), E>,
    outputs: [u8; 2],
) -> Result<Vec<u8>, AllocError>
    ensures { IfOk result (λ v. MatchResult res (λ _. v.items ≡ word.now ++ outputs_text outputs) (λ e. IfSome (E.output e) (λ t. v.items ≡ t ++ outputs_text outputs))) }
{
    match res {
        Ok(()) => with_outputs(heap, &word, outputs),
        Err(refused) => with_outputs(heap, &refused, outputs),
    }
}

fn needs_line(heap: Global, list: u64) -> Result<Vec<u8>, AllocError>
    ensures { IfOk result (λ v. v.items ≡ codes "needs=" ++ (hex_text 16 list ++ codes "\n")) }
{
    Ok(format!(in heap; "needs={list:016X}\n")?.into_bytes())
}

fn refusal_line(heap: Global, refusal: Refusal) -> Result<Vec<u8>, AllocError>
    ensures { IfOk result (λ v. v.items ≡ refused_text (refusal_number refusal) ++ codes "\n") }
{
    let refused = Refused(refusal);
    Ok(format!(in heap; "{refused}\n")?.into_bytes())
}

// The lines that the bench prints for an answer, each with its LF.
pub fn answer_text(heap: Global, answer: &Answer) -> Result<Vec<u8>, AllocError>
    ensures { IfOk result (λ v. v.items ≡ answer_text answer.now) }
{
    let outputs = answer.outputs;
    match answer.reply {
        Reply::Loaded(result) => call_line(heap, "loaded", result.map_err(Refused), outputs),
        Reply::Scanned(result) => call_line(heap, "scanned", result.map_err(Refused), outputs),
        Reply::Halted(result) => call_line(heap, "halted", result.map_err(Refused), outputs),
        // A report ends in LF itself.
        Reply::Reported(Ok(report)) => Vec::from_slice(heap, report.bytes()),
        Reply::Needs(Ok(list)) => needs_line(heap, list),
        Reply::Reported(Err(refusal)) | Reply::Needs(Err(refusal)) => refusal_line(heap, refusal),
    }
}
