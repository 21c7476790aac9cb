// Runs document 01's examples, limits and boundaries through the calls of coder 1234. The cases stand in data/cases.txt, which says how
// they are written. Each printed line says what was lent and what came; buffers are compared from end to end, so that what must keep what
// it held is compared too. Each coder has such a program, since each has cases of its own.
#![tactic(auto)]

use coding_descriptor::Coder1234;

fn main(rt: HostRuntime) {
    cases::run::<Coder1234>(&rt);
}
