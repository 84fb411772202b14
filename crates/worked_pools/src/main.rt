// The worked examples of document 01 on returns, judging and joining, run on the code and printed.
#![tactic(auto)]

mod returns;
mod totals;

// The yes of the examples, and the false entry 2 with h(2) = 2147483645.
fn judging() {
    returns::judge(&returns::make(), 4);
    printing::write(b"a false entry 2\n");
    let lying = b"\x21\x09\0\0\0\0\x02\0\0\0\x02\0\0\0\x03\0\0\0\x06\0\0\0\0\0\0\0\
        \xfd\xff\xff\x7f\x05\0\0\0\x07\0\0\0\x23\0\0\0";
    returns::judge(lying, 2);
    returns::judge(lying, 3);
    returns::judge(lying, 1);
    returns::judge(lying, 2147483646);
    returns::judge(lying, 2147483647);
}

fn main() {
    judging();
    returns::opens(128);
    returns::opens(129);
    totals::show();
}
