// The names of functions and classes that begin in what is measured.
ghost use Rattle.std.specs.Prelude.{◌+◌, ◌≤◌};

// How many names there is room for: more than the functions and classes of any module.
pub const ROOM: usize = 320;

// Where the names of functions, and of classes, stand in the tree, in their order, and how many of each there are.
#[derive(Drop)]
pub struct Begun {
    pub functions: [u32; ROOM],
    pub classes: [u32; ROOM],
    pub function_count: usize,
    pub class_count: usize,
    pub ghost few: { function_count + class_count ≤ 320 },
}
