// The worked examples of document 01 on sheets, values and circuits, run on the code and printed.
#![tactic(auto)]

mod forms;

fn sheets() {
    forms::sheet(b"sheet 17:\x11");
    forms::sheet(b"sheet 17, 18 3, 19 2:\x11\x12\x03\x13\x02");
    forms::sheet(b"sheet 18 2:\x12\x02");
    forms::sheet(b"sheet 18 64:\x12\x40");
    forms::sheet(b"sheet 18 1:\x12\x01");
    forms::sheet(b"sheet 18 65:\x12\x41");
    forms::sheet(b"an empty sheet:");
    forms::sheet(b"sheet 20:\x14");
    forms::sheet(b"sheet 17, 18 cut:\x11\x12");
}

fn tops() {
    forms::sheet(b"sheet 20 200:\x14\xc8\0\0\0");
    forms::sheet(b"sheet 20 1:\x14\x01\0\0\0");
    forms::sheet(b"sheet 20 16777215:\x14\xff\xff\xff\0");
    forms::sheet(b"sheet 20 0:\x14\0\0\0\0");
    forms::sheet(b"sheet 20 16777216:\x14\0\0\0\x01");
    forms::sheet(b"sheet 20, 3 bytes:\x14\xc8\0\0");
}

fn points() {
    forms::sheet(b"sheet 21 8:\x15\x08");
    forms::sheet(b"sheet 21 1:\x15\x01");
    forms::sheet(b"sheet 21 12, 20 200, 21 2:\x15\x0c\x14\xc8\0\0\0\x15\x02");
    forms::sheet(b"sheet 21 0:\x15\0");
    forms::sheet(b"sheet 21 13:\x15\x0d");
    forms::sheet(b"sheet 21 cut:\x15");
    forms::sheet(b"sheet 22 1:\x16\x01");
}

fn long_sheets() {
    printing::write(b"256 columns of 17");
    forms::counts(&[17; 256]);
    printing::write(b"257 columns of 17");
    forms::counts(&[17; 257]);
    let mut late = [17; 301];
    late[300] = 99;
    printing::write(b"300 columns of 17, then 99");
    forms::counts(&late);
}

fn values() {
    forms::values(b"values 1, 2, 2:\x01\0\0\0\x02\0\0\0\x02\0\0\0");
    forms::values(b"values 2, 2, 2:\x02\0\0\0\x02\0\0\0\x02\0\0\0");
    forms::values(b"values 1, 2, 4:\x01\0\0\0\x02\0\0\0\x04\0\0\0");
    forms::values(b"a value missing:\x01\0\0\0\x02\0\0\0");
}

fn written() {
    let mut out = [0; 21];
    forms::circuit(b"circuit of sheet 17", &mut out);
    forms::steps(&out);
    printing::write(b"read");
    forms::wires(1, &out);
    forms::circuit(b"with room for 20 bytes", &mut [0; 20]);
    printing::write(b"over 0 entries");
    forms::wires(0, &out);
}

fn circuits() {
    forms::read(b"an empty circuit:");
    forms::read(b"a step that names its own wire:\x02\0\0\x03\0\0\x01\0");
    forms::read(b"the constant p:\x01\xff\xff\xff\x7f");
    forms::read(b"entry 1 of 1:\x02\x01\0");
}

fn main() {
    sheets();
    tops();
    points();
    long_sheets();
    values();
    written();
    circuits();
}
