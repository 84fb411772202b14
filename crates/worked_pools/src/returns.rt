// Returns of sheet 17 at two servers, through the calls that the C functions of a server hand everything to. Server 1's share is
// all zeros, so what server 0 writes are the sums: d, e and sigma of the whole return.
ghost use Rattle.std.specs.Prelude.{◌+◌, ◌≤◌, length};

use printing::{fill, item, line, refused, write};
use records::Refusal;
use round_message::{LENGTH_ONE, LENGTH_TWO};
use slots::{Change, FREE_SLOT, Slot};

// A server: the three parts of its table, and its messages of the two rounds.
#[derive(Clone, Copy)]
struct Server {
    table: [u8; 59],
    list: [Slot; 8],
    numbers: [u32; 88],
    one: [u8; LENGTH_ONE],
    two: [u8; LENGTH_TWO],
}

// The records after a call.
fn after(mut list: [Slot; 8], change: Change) -> [Slot; 8] {
    if change.at < 8 {
        list[change.at] = change.slot;
    }
    list
}

impl Server {
    // With a table of server `own`, for 10 returns and a least count of 1.
    fn open(own: u32) -> Result<Server, Refusal> {
        let mut table = [0; 59];
        let mut numbers = [0; 88];
        opening::open(2, own, &[17], 10, 1, &mut table, 8, &mut numbers)?;
        Ok(Server {
            table,
            list: [FREE_SLOT; 8],
            numbers,
            one: [0; LENGTH_ONE],
            two: [0; LENGTH_TWO],
        })
    }

    // A share comes in, with the pair r, 0.
    fn share(self, m: &[u8; 42], r: u64) -> Result<Server, Refusal> {
        let mut numbers = self.numbers;
        let mut one = [0; LENGTH_ONE];
        let taken = shares::share(&self.table, self.list, &mut numbers, m, r, 0, &mut one)?;
        Ok(Server {
            list: after(self.list, taken.change),
            numbers,
            one,
            ..self
        })
    }

    // Round one, with the messages of both servers.
    fn round_one(self, joined: &[u8; 2 * LENGTH_ONE]) -> Result<Server, Refusal> {
        let mut two = [0; LENGTH_TWO];
        let summed = round_one::round_one(
            &self.table,
            self.list,
            &self.numbers,
            9,
            joined,
            &mut two,
        )?;
        Ok(Server {
            list: after(self.list, summed.change),
            two,
            ..self
        })
    }

    // Round two, and where the return is accepted, its entry.
    fn round_two(self, joined: &[u8; 2 * LENGTH_TWO]) -> Result<(), Refusal> {
        let mut table = self.table;
        let mut numbers = self.numbers;
        let decision = round_two::round_two(&mut table, self.list, &mut numbers, 9, joined)?;
        if !decision.accepted {
            write(b", rejected\n");
            return Ok(());
        }
        write(b", accepted");
        Server {
            table,
            list: after(self.list, decision.change),
            numbers,
            ..self
        }
        .enter()
    }

    // Entering: the total that the return is added to, which stands behind the sheet of one byte.
    fn enter(self) -> Result<(), Refusal> {
        let mut table = self.table;
        let mut numbers = self.numbers;
        entering::enter(&mut table, self.list, &mut numbers, 9)?;
        line(b", entered: total ", u64::from(words::read_u32(&table, 15)));
        Ok(())
    }
}

// The messages of both servers, one behind the other: of round one, and of round two.
fn ones(first: [u8; LENGTH_ONE], second: [u8; LENGTH_ONE]) -> [u8; 2 * LENGTH_ONE] {
    let mut joined = [0; 2 * LENGTH_ONE];
    words::copy(&mut joined, 0, &first);
    words::copy(&mut joined, LENGTH_ONE, &second);
    joined
}

fn twos(first: [u8; LENGTH_TWO], second: [u8; LENGTH_TWO]) -> [u8; 2 * LENGTH_TWO] {
    let mut joined = [0; 2 * LENGTH_TWO];
    words::copy(&mut joined, 0, &first);
    words::copy(&mut joined, LENGTH_TWO, &second);
    joined
}

// The first two numbers of a message.
fn pair(text: &[u8], m: &[u8])
    requires { 14 ≤ length m.now }
{
    let first = words::read_u32(m, 6);
    let second = words::read_u32(m, 10);
    fill(text, &[u64::from(first), u64::from(second)]);
}

// Server 1's share: zeros.
fn zeros() -> [u8; 42] {
    let mut m = [0; 42];
    m[0] = 33;
    m[1] = 9;
    m[5] = 1;
    m
}

// A return whose share at server 0 is `first`, with r, through both rounds at fresh tables.
fn judged(first: &[u8; 42], r: u64) -> Result<(), Refusal> {
    let here = Server::open(0)?.share(first, r)?;
    let there = Server::open(1)?.share(&zeros(), r)?;
    pair(b": d #, e #", &here.one);
    let joined = ones(here.one, there.one);
    let here = here.round_one(&joined)?;
    let there = there.round_one(&joined)?;
    pair(b", sigma #, tau #", &here.two);
    here.round_two(&twos(here.two, there.two))
}

// The same, as a line.
pub fn judge(first: &[u8; 42], r: u64) {
    item(b"r ", r);
    if let Err(refusal) = judged(first, r) {
        refused(refusal.number());
    }
}

// One element of a share message.
fn element(m: &[u8; 84], at: usize) -> u64
    requires { at + 4 ≤ 84 }
{
    u64::from(words::read_u32(m, at))
}

// What was made: its length, and h and c of the first message.
fn made(out: &[u8; 84], written: usize) {
    fill(
        b"yes: bytes #, h # # #, c #\n",
        &[
            written as u64,
            element(out, 18),
            element(out, 22),
            element(out, 26),
            element(out, 38),
        ],
    );
}

// The random numbers of the example: u_0 = 2, v_0 = 3, a = 5, b = 7 and a share of zeros for server 1.
fn random() -> [u8; 52] {
    let mut numbers = [0; 52];
    numbers[0] = 2;
    numbers[4] = 3;
    numbers[8] = 5;
    numbers[12] = 7;
    numbers
}

// The first of two share messages.
fn first(made: &[u8; 84]) -> [u8; 42] {
    let mut m = [0; 42];
    m.copy_from_slice(&made[..42]);
    m
}

// Making a yes: server 0's share.
pub fn make() -> [u8; 42] {
    let mut out = [0; 84];
    let mut written = 0;
    let numbers = random();
    let number = pool_client::pool_make(
        &[17],
        2,
        9,
        &[1, 0, 0, 0],
        &numbers,
        &mut out,
        &mut written,
    );
    if number == 0 {
        made(&out, written);
    } else {
        refused(number);
    }
    first(&out)
}

// Whether a table of sheet 19 24 opens for so many returns.
pub fn opens(returns: u32) {
    let mut table = [0; 1000];
    let mut numbers = [0; 648];
    item(b"sheet 19 24, N ", u64::from(returns));
    match opening::open(2, 0, &[19, 24], returns, 1, &mut table, 8, &mut numbers) {
        Ok(written) => line(b": a table of bytes ", written as u64),
        Err(refusal) => refused(refusal.number()),
    }
}
