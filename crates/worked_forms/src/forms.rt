// Sheets, their values and their circuits: what each comes to, or the number that refuses it. An example is its name, a
// colon and its bytes.
use printing::{bytes, fill, label, line, refused, write};

// What a sheet comes to.
pub fn counts(s: &[u8]) {
    match sheet::read(s) {
        Ok(counts) => fill(
            b": L #, published #, M #, K #\n",
            &[
                counts.entries as u64,
                counts.published as u64,
                counts.gates as u64,
                counts.tests as u64,
            ],
        ),
        Err(refusal) => refused(refusal.number()),
    }
}

// A sheet.
pub fn sheet(example: &[u8]) {
    let at = label(example);
    counts(&example[at..]);
}

// The entries that encode one value for each column of the sheet 17, 18 3, 19 2, four bytes a value.
pub fn values(example: &[u8]) {
    let mut out = [0u32; 7];
    let at = label(example);
    match values::encode(&[17, 18, 3, 19, 2], &example[at..], &mut out) {
        Ok(()) => {
            write(b": entries");
            printing::numbers(&out);
        }
        Err(refusal) => refused(refusal.number()),
    }
}

// The circuit of sheet 17: its length, or its refusal.
pub fn circuit(name: &[u8], out: &mut [u8]) {
    let mut written: usize = 0;
    write(name);
    let number = pool_sheets::pool_circuit(&[17], out, &mut written);
    if number == 0 {
        line(b": bytes ", written as u64);
    } else {
        refused(number);
    }
}

// The steps of the circuit of sheet 17: a constant, an entry, a sum, a product and a test.
pub fn steps(steps: &[u8; 21]) {
    bytes(steps, 0, 5);
    bytes(steps, 5, 8);
    bytes(steps, 8, 13);
    bytes(steps, 13, 18);
    bytes(steps, 18, 21);
}

// What a circuit over so many entries comes to.
pub fn wires(entries: u32, s: &[u8]) {
    match circuit::read(entries, s) {
        Ok(counts) => fill(
            b": wires #, M #, K #\n",
            &[
                counts.wires as u64,
                counts.multiplications as u64,
                counts.tests as u64,
            ],
        ),
        Err(refusal) => refused(refusal.number()),
    }
}

// A circuit over one entry.
pub fn read(example: &[u8]) {
    let at = label(example);
    wires(1, &example[at..]);
}
