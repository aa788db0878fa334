// Questions 17 to 21 of each module of tests/vectors/modules.txt.
#![tactic(auto)]

use std::io::Result as IoResult;
use vectors::Lines;

const MODULE_ROOM: usize = 32768;

// The answer to a module, in a line.
fn answer(rt: &impl Print, module: &[u8]) -> IoResult<()> {
    match reader::read_module(module) {
        Ok(_) => rt.println("accepted"),
        Err(q) => println!(rt; "refused {q}"),
    }
}

// What such replays share stands in `vectors`: the room and the answer alone are told here.
fn main(rt: HostRuntime) -> IoResult<()> {
    Lines::new(rt.stdin()).replay(&rt, &mut [0; MODULE_ROOM], |module| answer(&rt, module))
}
