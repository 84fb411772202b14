// The program recount: reads joined totals messages with their sheet, S and N from standard input, and prints what they come
// to. Input that is longer than the buffer can not be joined, and the number of its refusal is that of its start.
#![tactic(auto)]

fn main() {
    let mut input = [0u8; 73781];
    let read = io::read_full(0, &mut input);
    let mut out = [0u8; 16158];
    let written = listing::text_of(&input, read, &mut out);
    io::write_all(1, &out[..written]);
}
