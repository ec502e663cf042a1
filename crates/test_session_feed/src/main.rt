// A session of the dialogue: files that are fed in pieces, and what is advised of them. In STRADDLE.OBJ the faulty line, in CRLF.OBJ a
// line's CR and LF stand in two pieces; in SEVERAL.OBJ the second fault stands in the second piece. LIMIT.OBJ has the most bytes that a
// file may have, OVER.OBJ one more, and LONG.OBJ too many behind its fault. The file TTY is no terminal.
#![tactic(auto)]

fn main(rt: HostRuntime) {
    dialogue::run(&rt);
}
