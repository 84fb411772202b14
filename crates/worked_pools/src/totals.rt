// Joining the closing messages of two servers with the sheet 17, 18 3 and N = 10: counts 3 and 3, totals 5, 7,
// 2147483646, 0 and 2147483644, 2147483640, 3, 1.
ghost use Rattle.std.specs.Prelude.{◌+◌, ◌≤◌};

// One total.
fn total(out: &[u8; 16], at: usize) -> u64
    requires { at + 4 ≤ 16 }
{
    u64::from(words::read_u32(out, at))
}

pub fn show() {
    let joined = b"\x24\x00\x03\0\0\0\x05\0\0\0\x07\0\0\0\xfe\xff\xff\x7f\0\0\0\0\
        \x24\x01\x03\0\0\0\xfc\xff\xff\x7f\xf8\xff\xff\x7f\x03\0\0\0\x01\0\0\0";
    let mut out = [0; 16];
    let mut accepted = 0;
    let mut written = 0;
    let number = pool_totals::pool_join(
        2,
        &[17, 18, 3],
        10,
        joined,
        &mut out,
        &mut accepted,
        &mut written,
    );
    if number != 0 {
        printing::refused(number);
        return;
    }
    printing::fill(
        b"joined: accepted #, totals # # # #\n",
        &[
            u64::from(accepted),
            total(&out, 0),
            total(&out, 4),
            total(&out, 8),
            total(&out, 12),
        ],
    );
}
