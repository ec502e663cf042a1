// A session of the dialogue: which fault of a line is told and at which column, what stays as it was, and the mended file behind
// each. WHOLE.OBJ is the mended one; the others are like it but for one line, for CR LF (CRLF, CRLFM, LASTCR), or small (LIST).
// NAMES.OBJ is legal too: its names have dollars and dots, where that of DOLLAR.OBJ starts with one.
#![tactic(auto)]

fn main(rt: HostRuntime) {
    dialogue::run(&rt);
}
