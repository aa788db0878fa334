// What an instruction does to the height of the stack, by its opcode and operands: columns of the table beside the operands' widths.
ghost use Rattle.std.specs.Prelude.{◌≡◌, ◌+◌, ◌-◌, ◌*◌, ◌/◌, ◌%◌, ◌≤◌, ◌<◌, eqb};
ghost use Rattle.definitions.specs.Instruction.{instr, row_of, flow};
ghost use Rattle.definitions.specs.Stack.{pops, height_after};
ghost use Rattle.widths.specs.Turns.{turn};

use numerals::op_places::*;

// An instruction's pushes and pops in one number: a one for each value that it pushes, and so much for each that it pops by itself, and for each that
// its second and its first operand count; and so much where the next place is not met at the height left.
const PUSHED: u8 = 1;

const POPPED: u8 = 4;

const SECOND: u8 = 16;

const FIRST: u8 = 32;

const TURNED: u8 = 128;

// That number. One table in the place of four: read one after the other, and counting a word's height takes twice as long. Past the table there is no
// instruction.
#[tactic(auto, unfolding(definitions::specs::Instruction::row_of, definitions::specs::Instruction::instruction_table, crate::specs::Turns::turn))]
fn effect(op: usize) -> u8
    ensures { let r = row_of op in result ≡ r.pushes + 4 * r.pops.own + 16 * r.pops.per_second + 32 * r.pops.per_first + 128 * turn r.flow }
{
    match op {
        CONST_I64 => PUSHED,
        CONST_F64 => PUSHED,
        CONST_STR => PUSHED,
        TRUE => PUSHED,
        FALSE => PUSHED,
        NONE => PUSHED,
        LOAD_CONST => PUSHED,
        POP => POPPED,
        DUP => POPPED + 2 * PUSHED,
        LOAD_LOCAL => PUSHED,
        STORE_LOCAL => POPPED,
        LOAD_GLOBAL => PUSHED,
        STORE_GLOBAL => POPPED,
        ADD => 2 * POPPED + PUSHED,
        SUB => 2 * POPPED + PUSHED,
        MUL => 2 * POPPED + PUSHED,
        DIV => 2 * POPPED + PUSHED,
        TRUE_DIV => 2 * POPPED + PUSHED,
        MOD => 2 * POPPED + PUSHED,
        NEG => POPPED + PUSHED,
        POS => POPPED + PUSHED,
        EQ => 2 * POPPED + PUSHED,
        NE => 2 * POPPED + PUSHED,
        LT => 2 * POPPED + PUSHED,
        LE => 2 * POPPED + PUSHED,
        GT => 2 * POPPED + PUSHED,
        GE => 2 * POPPED + PUSHED,
        NOT => POPPED + PUSHED,
        JUMP => TURNED,
        JUMP_IF_FALSE => POPPED,
        JUMP_IF_TRUE => POPPED,
        CALL => SECOND + PUSHED,
        CALL_BUILTIN => SECOND + PUSHED,
        RETURN => TURNED,
        CALL_VALUE => POPPED + FIRST + PUSHED,
        CALL_METHOD => POPPED + SECOND + PUSHED,
        LOAD_ATTR => POPPED + PUSHED,
        STORE_ATTR => 2 * POPPED,
        BUILD_LIST => FIRST + PUSHED,
        BUILD_TUPLE => FIRST + PUSHED,
        BUILD_DICT => 2 * FIRST + PUSHED,
        BUILD_SET => FIRST + PUSHED,
        BUILD_TREE_SET => FIRST + PUSHED,
        LOAD_INDEX => 2 * POPPED + PUSHED,
        STORE_INDEX => 3 * POPPED,
        MAKE_CLOSURE => SECOND + PUSHED,
        _ => 0,
    }
}

// How many values an instruction of that number pops. An operand that counts has at most two bytes. Most count nothing, which is tested first: a module's
// writer asks this of each word.
fn popped_by(effect: u64, a: u64, b: u64) -> u64
    requires { effect < 256 }
    ensures { (result ≡ effect / 4 % 4 + effect / 32 % 4 * (a % 65536) + effect / 16 % 2 * (b % 65536)) × (result < 262144) }
{
    let own = effect / 4 % 4;
    if effect < SECOND as u64 {
        return own;
    }
    own + effect / 32 % 4 * (a % 65536) + effect / 16 % 2 * (b % 65536)
}

// The height that it leaves, met at height h.
fn left_by(effect: u64, a: u64, b: u64, h: u64) -> u64
    requires { (effect < 256) × (h < 4294967296) }
    ensures { result ≡ h - (effect / 4 % 4 + effect / 32 % 4 * (a % 65536) + effect / 16 % 2 * (b % 65536)) + effect % 4 }
{
    h.saturating_sub(popped_by(effect, a, b)) + effect % 4
}

// How many values an instruction pops.
pub fn popped(op: usize, a: u64, b: u64) -> u64
    ensures { (result ≡ pops (instr op (a % 65536) (b % 65536))) × (result < 262144) }
{
    popped_by(effect(op) as u64, a, b)
}

// The height that it leaves, met at height h.
pub fn height_after(op: usize, a: u64, b: u64, h: u64) -> u64
    requires { h < 4294967296 }
    ensures { (result ≡ height_after (instr op (a % 65536) (b % 65536)) h) × (result ≤ h + 2) }
{
    left_by(effect(op) as u64, a, b, h)
}

// The same, and whether the next place is met at it: by the one number, so that few words ask which instruction they are.
pub fn height_onward(op: usize, a: u64, b: u64, h: u64) -> (u64, bool)
    requires { h < 4294967296 }
    ensures left { (result.0 ≡ height_after (instr op (a % 65536) (b % 65536)) h) × (result.0 ≤ h + 2) }
    ensures onward { result.1 ≡ eqb (turn (flow op)) 0 }
{
    let effect = effect(op) as u64;
    (left_by(effect, a, b, h), effect < TURNED as u64)
}
