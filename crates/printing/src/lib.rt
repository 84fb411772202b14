// Lines of text on the standard output.
#![tactic(auto)]

ghost use Rattle.std.specs.Prelude.{◌≤◌, length};

// The file descriptor of the standard output.
const STDOUT_FILENO: i32 = 1;

pub fn write(text: &[u8]) {
    io::write_all(STDOUT_FILENO, text);
}

// A name before a number.
pub fn item(name: &[u8], value: u64) {
    write(name);
    io::print_decimal(STDOUT_FILENO, value);
}

// A name before a number, to the end of the line.
pub fn line(name: &[u8], value: u64) {
    item(name, value);
    write(b"\n");
}

// The number that refuses something, to the end of the line.
pub fn refused(number: u32) {
    line(b": refused ", u64::from(number));
}

// A text in which each '#' stands for the next of the numbers; what is left of them is not written.
pub fn fill(text: &[u8], numbers: &[u64]) {
    let mut rest = numbers.iter();
    for byte in text {
        if *byte != b'#' {
            write(&[*byte]);
        } else if let Some(number) = rest.next() {
            io::print_decimal(STDOUT_FILENO, *number);
        }
    }
}

// The text before its first colon. Answers where what is behind the colon begins.
pub fn label(text: &[u8]) -> usize
    ensures { result ≤ length text.now }
{
    for (i, byte) in text.iter().enumerate() {
        if *byte == b':' {
            return i + 1;
        }
        write(&[*byte]);
    }
    text.len()
}

// The bytes from one place up to another, as numbers, each behind a space, to the end of the line.
pub fn bytes(list: &[u8], from: usize, to: usize)
    requires { to ≤ length list.now }
{
    for i in from..to {
        item(b" ", u64::from(list[i]));
    }
    write(b"\n");
}

// Numbers, each behind a space, to the end of the line.
pub fn numbers(list: &[u32]) {
    for number in list {
        item(b" ", u64::from(*number));
    }
    write(b"\n");
}
