// A new desk, and whole lists of requests.
ghost use Rattle.std.specs.Prelude.{◌≡◌, ◌+◌, ◌<◌, ◌≤◌, None, vec_len, vec_capacity};
ghost use Rattle.block.specs.Of.{meaning};
ghost use Rattle.desk.specs.Runs.{EveryKeptTurn, RunOutcome, Turn, scene};
ghost use Rattle.desk.specs.Sizes.{first_blocks, first_bytes};

use super::Desk;
use crate::answer::Answer;
use crate::request::Request;
use block::Block;
use station::Station;
use std::alloc::AllocError;

// How many blocks a station works on.
const FIRST_BLOCKS: usize = 32;

// How many output bytes a station works on.
const FIRST_BYTES: usize = 2;

impl Desk {
    // A station that is not loaded; calls are lent as many blocks and bytes as it works on.
    pub fn new() -> Desk
        ensures station { result.station.wiring ≡ None }
        ensures blocks { result.blocks ≡ first_blocks }
        ensures bytes { result.bytes ≡ first_bytes }
    {
        Desk {
            station: Station::new(),
            blocks: FIRST_BLOCKS,
            bytes: FIRST_BYTES,
        }
    }

    // Serves a list of requests in order and adds their answers, or finds no memory for them and does nothing.
    pub fn run<B: Block>(
        &mut self,
        requests: &[Request],
        table: &mut [B],
        outputs: &mut [u8],
        answers: &mut Vec<Answer>,
    ) -> Result<(), AllocError>
        ensures { RunOutcome (meaning B.Block) result requests.now self.old self.new table.old table.new outputs.old outputs.new answers.old.items answers.new.items }
    {
        answers.reserve(requests.len())?;
        for request in requests {
            self.serve_and_note(request, table, outputs, answers);
        }
        Ok(())
    }

    // Serves one request, and adds its answer where there is one.
    fn serve_and_note<B: Block>(
        &mut self,
        request: &Request,
        table: &mut [B],
        outputs: &mut [u8],
        answers: &mut Vec<Answer>,
    )
        requires { vec_len answers.old < vec_capacity answers.old }
        ensures turn { Turn (meaning B.Block) request.now (scene self.old table.old outputs.old answers.old.items) (scene self.new table.new outputs.new answers.new.items) }
        ensures past { EveryKeptTurn (meaning B.Block) request.now (scene self.old table.old outputs.old answers.old.items) (scene self.new table.new outputs.new answers.new.items) }
        ensures len { vec_len answers.new ≤ vec_len answers.old + 1 }
        ensures capacity { vec_capacity answers.new ≡ vec_capacity answers.old }
    {
        if let Some(answer) = self.serve(request, table, outputs) {
            answers.push_reserved(answer);
        }
    }
}
