// An instruction's bytes from its word.
// The bound of a single number stays a clause: a type for it would be opened at each use.
ghost use Rattle.std.specs.Prelude.{◌≡◌, List, ℕ, ◌≤◌, ◌<◌, ◌^◌, length};
ghost use Rattle.definitions.specs.Bytes.{be};
ghost use Rattle.definitions.specs.Instruction.{encode};
ghost use Rattle.exprs.specs.Literals.{PlainLiteral, bits_of};
ghost use Rattle.state.specs.Words.{big_endian_at, first_of, instr_of};
ghost use Rattle.state.specs.Words as Words;
ghost use Rattle.writing.specs.Wrote.{Wrote};

use exprs::literals::{Literal, float_literal, int_literal, literal_bits};
use names::spell::byte;
use numerals::ops::{CONST_I64, JUMP, JUMP_IF_TRUE, SMALL_INT};
use numerals::places::{PLACED_END, UPPER, WORD_FIRST, WORD_OP};
use widths::{first_width, second_width, word_width};
use writing::numbers::write_number;

// The opcode of a word: a small integer is a ConstI64.
pub(crate) fn opcode(w: u32) -> usize
    ensures { ((t : List ℕ) → result ≡ (instr_of t w).op) × (result < 256) }
{
    match w / WORD_OP {
        SMALL_INT => CONST_I64 as usize,
        op => op as usize,
    }
}

// The big-endian number of eight bytes at `at`, 0 for those past the end.
fn eight_at(bytes: &[u8], at: usize) -> u64
    requires { at < 2 ^ 32 }
    ensures { result ≡ big_endian_at 8 bytes.now at }
{
    u64::from_be_bytes([
        byte(bytes, at),
        byte(bytes, at + 1),
        byte(bytes, at + 2),
        byte(bytes, at + 3),
        byte(bytes, at + 4),
        byte(bytes, at + 5),
        byte(bytes, at + 6),
        byte(bytes, at + 7),
    ])
}

// The literal whose eight bytes stand at the place that the word has: of the opcode 0 an integer, else a float.
fn literal_of(tree: &[u8], w: u32) -> Literal
    ensures { PlainLiteral result × (bits_of result ≡ big_endian_at 8 tree.now (first_of w)) }
{
    let bits = eight_at(tree, (w / WORD_FIRST % UPPER) as usize);
    if w < WORD_OP {
        int_literal(bits)
    } else {
        float_literal(bits)
    }
}

// The bytes of that literal's value. Tree, word and output stay apart here and in the writers below: a struct of them would be made anew at each
// call, as each is lent other bytes of the output, so it is no plainer.
fn write_literal(tree: &[u8], w: u32, out: &mut [u8]) -> usize
    requires { 8 ≤ length out.old }
    ensures { Wrote result (be 8 (big_endian_at 8 tree.now (first_of w))) out.old out.new }
{
    let x = literal_of(tree, w);
    write_number(8, literal_bits(x), out)
}

// A signed number of 16 bits in 32 bits. A function of its own, since the definition's has a name too: first_operand is no plainer with its casts.
fn widened(a: u32) -> u32
    requires { a < 65536 }
    ensures { result ≡ Words.widened a }
{
    i32::from((a as u16).cast_signed()).cast_unsigned()
}

// A word's first operand where it is no place in the tree: of a jump signed.
fn first_operand(w: u32) -> u64
    requires { 33554432 ≤ w }
    ensures { (t : List ℕ) → result ≡ (instr_of t w).a }
{
    let a = w / WORD_FIRST % UPPER;
    match w / WORD_OP {
        JUMP..=JUMP_IF_TRUE => widened(a) as u64,
        _ => a as u64,
    }
}

fn second_operand(w: u32) -> u64
    ensures { (t : List ℕ) → result ≡ (instr_of t w).b }
{
    match w / WORD_OP {
        SMALL_INT => 0,
        _ => (w % WORD_FIRST) as u64,
    }
}

// How many bytes the instruction of a word has, whatever the tree.
pub(crate) fn instruction_size(w: u32) -> usize
    ensures { ((t : List ℕ) → result ≡ length (encode (instr_of t w))) × (result ≤ 10) }
{
    word_width((w / WORD_OP) as usize) as usize
}

// The bytes of a ConstI64 or ConstF64 whose operand is a place in the tree: a word with the opcode 0 or 1.
fn write_place(tree: &[u8], w: u32, out: &mut [u8]) -> usize
    requires { (w < 33554432) × (length (encode (instr_of tree.now w)) ≤ length out.old) }
    ensures { Wrote result (encode (instr_of tree.now w)) out.old out.new }
{
    out[0] = (w / WORD_OP) as u8;
    1 + write_literal(tree, w, &mut out[1..])
}

// The instruction's bytes: the opcode and the operands in their widths.
pub(crate) fn write_instruction(tree: &[u8], w: u32, out: &mut [u8]) -> usize
    requires { length (encode (instr_of tree.now w)) ≤ length out.old }
    ensures { Wrote result (encode (instr_of tree.now w)) out.old out.new }
{
    let op = opcode(w);
    let first = first_width(op) as usize;
    if first == 0 {
        out[0] = op as u8;
        return 1;
    }
    if w < PLACED_END {
        return write_place(tree, w, out);
    }
    let second = second_width(op) as usize;
    let a = first_operand(w);
    let b = second_operand(w);
    out[0] = op as u8;
    let n = write_number(first, a, &mut out[1..]);
    let at = 1 + n;
    at + write_number(second, b, &mut out[at..])
}
