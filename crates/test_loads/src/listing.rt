// What a state holds: its symbols, the undefined ones, HIGH and the image.
use linker::{STATE_CELLS, lnk100_end, lnk100_memory, lnk100_symbols, lnk100_undefined};
use std::io::Print;
use test_script::{Name, say};

pub fn list_symbols(rt: &impl Print, state: &[u64; STATE_CELLS]) {
    for index in 0..256 {
        let s = lnk100_symbols(state, index);
        if s.none == 1 {
            break;
        }
        let name = Name(s.name);
        let value = s.value;
        let kind = if s.defined == 1 {
            "defined"
        } else {
            "undefined"
        };
        let _ = println!(rt; "  {name} {value} {kind}");
    }
    for index in 0..256 {
        let u = lnk100_undefined(state, index);
        if u.none == 1 {
            break;
        }
        let name = Name(u.name);
        let highest = u.highest;
        let _ = println!(rt; "  undefined {name}, highest reference {highest}");
    }
}

// HIGH, and the image of a copy, so that the run can go on. A record of the image to a line, as document 01 writes it: the kind, then
// numbers of two bytes.
pub fn list_image(rt: &impl Print, state: &[u64; STATE_CELLS]) {
    let _ = println!(rt; "  HIGH {}", lnk100_memory(state).high);
    let mut copy = *state;
    let mut out = [0u8; 512];
    let e = lnk100_end(&mut copy, &mut out);
    if e.number != 0 {
        let _ = println!(rt; "  END refused by {}", e.number);
        return;
    }
    for (i, byte) in out.iter().take(e.length as usize).enumerate() {
        if i % 11 == 0 {
            say(rt, if i == 0 { b"  ".as_slice() } else { b"\n  " });
        }
        if i % 11 % 2 == 1 {
            say(rt, b" ");
        }
        let _ = print!(rt; "{byte:02x}");
    }
    say(rt, b"\n");
}
