// Messages stored by place, the first byte of each, then the second of each, and so on; and brought back. Both move the
// bytes of a grid, some bytes of each message at a time. The contracts of `shelve` and `unshelve` are equalities with rules
// at document 01's setting; a refusal leaves the buffer as it was.
#![tactic(auto)]

ghost use Rattle.std.specs.Prelude.{◌≡◌, suc, ◌^◌, ◌≤◌, ◌<◌};
ghost use Rattle.records.specs.Refusals.{fault_of};
ghost use Rattle.rules.specs.Settings.{document01};
ghost use Rattle.rules.specs.Shelf.{shelved, unshelved, shelf_refusal};
ghost use Rattle.shelf.specs.Calls.{Stores};
ghost use Rattle.shelf.specs.Grid.{at, by_message, by_place, Movable, Moved};

use records::Refusal;

// R, and W: the bytes of 1,024 elements.
const MAX_MESSAGES: u32 = 64;

const MAX_WIDTH: u32 = 4096;

// So many bytes of each message are moved at a time: with 64 messages that is 4 KiB on the side where they lie apart.
const TILE: usize = 64;

// Byte j of message i stands at `message` times i plus `byte` times j.
#[derive(Clone, Copy)]
struct Steps {
    message: usize,
    byte: usize,
}

// So many messages of `width` bytes, by the steps that they are read by and those that they are written by.
#[derive(Clone, Copy)]
struct Grid {
    messages: usize,
    width: usize,
    read: Steps,
    write: Steps,
}

impl Steps {
    // One message after another.
    fn by_message(width: usize) -> Steps
        ensures { result ≡ by_message width }
    {
        Steps {
            message: width,
            byte: 1,
        }
    }

    // The first byte of each message, then the second of each.
    fn by_place(messages: usize) -> Steps
        ensures { result ≡ by_place messages }
    {
        Steps {
            message: 1,
            byte: messages,
        }
    }

    // Where byte j of message i stands.
    fn at(self, i: usize, j: usize) -> usize
        requires { at self i j < 2 ^ 64 }
        ensures { result ≡ at self i j }
    {
        self.message * i + self.byte * j
    }
}

impl Grid {
    // Moves the bytes from..to of message i.
    fn move_some(self, i: usize, from: usize, to: usize, run: &[u8], out: &mut [u8])
        requires { Movable self run.now out.old × (i < self.messages) × (from ≤ to) × (to ≤ self.width) }
        ensures { Moved self i (suc i) from to run.now out.old out.new }
    {
        for j in from..to {
            out[self.write.at(i, j)] = run[self.read.at(i, j)];
        }
    }

    // Moves the bytes from..to of each message.
    fn move_tile(self, from: usize, to: usize, run: &[u8], out: &mut [u8])
        requires { Movable self run.now out.old × (from ≤ to) × (to ≤ self.width) }
        ensures { Moved self 0 self.messages from to run.now out.old out.new }
    {
        for i in 0..self.messages {
            self.move_some(i, from, to, run, out);
        }
    }

    // Moves all bytes.
    fn move_all(self, run: &[u8], out: &mut [u8])
        requires { Movable self run.now out.old }
        ensures { Moved self 0 self.messages 0 self.width run.now out.old out.new }
    {
        for from in (0..self.width).step_by(TILE) {
            let to = from + TILE.min(self.width - from);
            self.move_tile(from, to, run, out);
        }
    }
}

// Whether R and W are in range, the run is R times W bytes, and the buffer has room for them.
#[tactic(auto, unfolding(rules::specs::Shelf::shelf_refusal, records::specs::Outcome::or_else))]
fn check_shelf(r: u32, w: u32, bytes: usize, room: usize) -> Result<(), Refusal>
    ensures { fault_of result ≡ shelf_refusal document01 r w bytes room }
{
    if !(1..=MAX_MESSAGES).contains(&r) || !(1..=MAX_WIDTH).contains(&w) {
        return Err(Refusal::Limit);
    }
    let size = (r * w) as usize;
    if bytes != size {
        return Err(Refusal::Run);
    }
    if room < size {
        return Err(Refusal::Room);
    }
    Ok(())
}

// Stores R messages of W bytes by place, from the front of `out`.
pub fn shelve(r: u32, w: u32, run: &[u8], out: &mut [u8]) -> Result<usize, Refusal>
    ensures { Stores (shelved r w run.now) r w run.now out.old result out.new }
{
    check_shelf(r, w, run.len(), out.len())?;
    let messages = r as usize;
    let width = w as usize;
    let g = Grid {
        messages,
        width,
        read: Steps::by_message(width),
        write: Steps::by_place(messages),
    };
    g.move_all(run, out);
    Ok(run.len())
}

// Brings R messages of W bytes back that were stored by place, to the front of `out`.
pub fn unshelve(r: u32, w: u32, shelf: &[u8], out: &mut [u8]) -> Result<usize, Refusal>
    ensures { Stores (unshelved r w shelf.now) r w shelf.now out.old result out.new }
{
    check_shelf(r, w, shelf.len(), out.len())?;
    let messages = r as usize;
    let width = w as usize;
    let g = Grid {
        messages,
        width,
        read: Steps::by_place(messages),
        write: Steps::by_message(width),
    };
    g.move_all(shelf, out);
    Ok(shelf.len())
}
