// A session of the dialogue: the manuals' sample modules as printed and as mended (source 000, Figure 4-2; source 001,
// Figure 3-1), resets after broken loads, two ENDs, and forced names among defined ones.
#![tactic(auto)]

fn main(rt: HostRuntime) {
    dialogue::run(&rt);
}
