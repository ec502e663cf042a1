// A line of the script: which case it is, and on what.
use crate::build::Built;
use crate::show::show;
use std::io::Print;
use test_script::{Script, letter, operand, say};

// The file in the lines below.
fn show_lines(rt: &impl Print, label: &[u8], lines: &[u8]) {
    let mut file = Built::new();
    file.put_lines(lines);
    show(rt, label, file.text());
}

// A module without its END.
fn show_inside(rt: &impl Print, header: &[u8]) {
    let mut file = Built::new();
    file.put(b"3 ***TITLE\nA\n");
    file.put(header);
    say(rt, b"in a module ");
    show(rt, header, file.text());
}

// A module with a block for one record, which is its own label.
fn show_record(rt: &impl Print, kind: &str, header: &[u8], record: &[u8]) {
    let mut file = Built::new();
    file.put(b"3 ***TITLE\nA\n");
    file.put(header);
    file.put(record);
    file.put(b"\n1 ***END\nA\n");
    let _ = print!(rt; "{kind} record ");
    show(rt, record, file.text());
}

fn show_text(rt: &impl Print, letter: u8, text: &[u8]) {
    match letter {
        b'h' => {
            say(rt, b"header ");
            show(rt, text, text);
        }
        b'm' => show_inside(rt, text),
        b'e' => show_record(rt, "entry", b"4 1 ***ENTRY\n", text),
        b'x' => show_record(rt, "external", b"5 1 ***EXT\n", text),
        b'c' => show_record(rt, "code", b"0 1 0 ***CODE\n", text),
        b'd' => show_record(rt, "data", b"10 1 X 0 ***DBDB\n", text),
        b'i' => show_record(rt, "init", b"11 1 ***DBIB\n", text),
        b'p' => show_record(rt, "parameter", b"12 1 ***FPB\n", text),
        _ => say(rt, b"?\n"),
    }
}

// The file of a case `--` stands below its line. That mark is cut as a letter and a space would be: the label starts with the space behind.
pub fn play_line(rt: &impl Print, line: &[u8], script: &mut Script) {
    match letter(line) {
        b'-' => show_lines(
            rt,
            operand(line).get(1..).unwrap_or(b""),
            script.file().text,
        ),
        b'#' | b'\n' => (),
        letter => {
            let mut text = Built::new();
            text.put_escaped(operand(line));
            show_text(rt, letter, text.text());
        }
    }
}
