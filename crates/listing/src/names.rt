// The names of the instructions.
ghost use Rattle.std.specs.Prelude.{◌≡◌, ◌∷◌, ◌≤◌, ◌<◌, length};
ghost use Rattle.definitions.specs.Calls.{written};
ghost use Rattle.definitions.specs.Columns.{left_in};
ghost use Rattle.definitions.specs.Listing.{name_text};

use writing::write_bytes;

// Each name after a space, in 16 columns.
const NAMES: [u8; 736] = *b" \
      ConstI64        ConstF64        ConstStr        True            False           None            \
      LoadConst       Pop             Dup             LoadLocal       StoreLocal      LoadGlobal      \
      StoreGlobal     Add             Sub             Mul             Div             TrueDiv         \
      Mod             Neg             Pos             Eq              Ne              Lt              \
      Le              Gt              Ge              Not             Jump            JumpIfFalse     \
      JumpIfTrue      Call            CallBuiltin     Return          CallValue       CallMethod      \
      LoadAttr        StoreAttr       BuildList       BuildTuple      BuildDict       BuildSet        \
      BuildTreeSet    LoadIndex       StoreIndex      MakeClosure    ";

// A space and an instruction's name, in 16 columns.
pub(crate) fn put_name(op: u8, out: &mut [u8])
    requires { (op < 46) × (16 ≤ length out.old) }
    ensures { out.new ≡ written (32 ∷ left_in 15 (name_text op)) out.old }
{
    let names = NAMES;
    let from = op as usize * 16;
    let to = from + 16;
    write_bytes(&names[from..to], out);
}
