// Operators of a tree's expressions, by their bytes.
// Bytes and no enum: public functions take them as a tree has them, and an enum would ask more of these.

// How many unary operators there are, and how many binary ones, of which `and` and `or` are the last.
pub const UNARY_OPERATORS: u8 = 3;

pub const BINARY_OPERATORS: u8 = 14;

// The bytes of operators: the unary ones but `+`; of the binary ones `/`, `//`, the first that compares, and `and`.
pub const NOT: u8 = 0;

pub const NEGATE: u8 = 1;

pub const DIVIDE: u8 = 3;

pub const FLOOR_DIVIDE: u8 = 4;

pub const FIRST_COMPARISON: u8 = 6;

pub const AND: u8 = 12;
