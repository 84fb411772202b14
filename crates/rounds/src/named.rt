// The return that a call names: what the table says, the place of the record that waits under the id in the stage that the call
// takes, and what that record says.
ghost use Rattle.std.specs.Prelude.{◌≡◌};
ghost use Rattle.records.specs.Refusals.{outcome_of};
ghost use Rattle.waiting.specs.Changes.{lent};
ghost use Rattle.waiting.specs.Stages.{stage_number};
ghost use Rattle.rounds.specs.Waits.{InRun, place_in, share_in};
ghost use Rattle.rounds.specs.Named.{named_in};

use layout::Table;
use records::Refusal;
use slots::Slot;
use waiting::{Stage, Waiting};

// What is found.
#[derive(Clone, Copy)]
pub struct Named {
    pub table: Table,
    pub at: usize,
    pub waiting: Waiting,
}

// The numbers of a place.
pub fn numbers_at<'a>(numbers: &'a [u32], k: Table, at: usize) -> &'a [u32]
    requires { InRun numbers.now k at }
    ensures { result.now ≡ place_in k at numbers.now }
{
    let size = k.place_size();
    let start = size * at;
    let end = start + size;
    &numbers[start..end]
}

// Those of them that are the elements of a share.
pub fn share_at<'a>(numbers: &'a [u32], k: Table, at: usize) -> &'a [u32]
    requires { InRun numbers.now k at }
    ensures { result.now ≡ share_in k at numbers.now }
{
    let start = k.place_size() * at;
    let end = start + k.share_size();
    &numbers[start..end]
}

// The return of an id, where it waits in a stage. An id that does not is refused as an unsound table is, so the records are
// looked at first: the list is then not needed again behind the reading, and is copied once less.
pub fn find(
    table: &[u8],
    list: [Slot; 8],
    numbers: &[u32],
    id: u32,
    stage: Stage,
) -> Result<Named, Refusal>
    ensures { outcome_of result ≡ named_in (lent table.now list numbers.now) id (stage_number stage) }
{
    let Some(at) = waiting::place_of(list, id) else {
        return Err(Refusal::Stage);
    };
    let x = list[at];
    if x.stage != stage as u32 {
        return Err(Refusal::Stage);
    }
    let table = table::read(table, list, numbers)?;
    if table.closed {
        return Err(Refusal::Stage);
    }
    let waiting = waiting::held(x, numbers_at(numbers, table, at), table.share_size());
    Ok(Named { table, at, waiting })
}
