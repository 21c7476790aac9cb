// Runs groups through the three coders, document 01's examples and the values at each step up in width,
// and prints a line for each: what must come, and ok, or WRONG and what came.
#![tactic(auto)]

mod coder0124;
mod coder1234;
mod coder1248;
mod groups;
mod lines;

fn main(rt: HostRuntime) {
    coder1234::run(&rt);
    coder0124::run(&rt);
    coder1248::run(&rt);
}
