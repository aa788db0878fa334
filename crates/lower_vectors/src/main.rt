// The module, or the refusal, of each tree of tests/vectors/trees.txt, within the office's limits.
#![tactic(auto)]

use limits::Limits;
use numerals::sizes::AREA;
use report::Hex;
use std::io::Result as IoResult;
use vectors::Lines;

// Room for a tree, so long a one too that it is refused, and for a module.
const TREE_ROOM: usize = 40000;

const MODULE_ROOM: usize = 65536;

// The answer to a tree, in a line.
fn answer(rt: &impl Print, tree: &[u8]) -> IoResult<()> {
    let mut area1 = [0u32; AREA];
    let mut area2 = [0u32; AREA];
    let mut module = [0u8; MODULE_ROOM];
    match lowering::lower(tree, Limits::Office, &mut area1, &mut area2, &mut module) {
        Ok(n) => println!(rt; "{}", Hex(&module[..n.min(MODULE_ROOM)])),
        Err(question) => println!(rt; "refused {question}"),
    }
}

// What such replays share stands in `vectors`: the room and the answer alone are told here.
fn main(rt: HostRuntime) -> IoResult<()> {
    Lines::new(rt.stdin()).replay(&rt, &mut [0; TREE_ROOM], |tree| answer(&rt, tree))
}
