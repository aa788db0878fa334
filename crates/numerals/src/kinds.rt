// The kinds of a tree's expressions and statements, by name, and from their bytes.
ghost use Rattle.std.specs.Prelude.{◌≡◌, ◌<◌};
ghost use Rattle.numerals.specs.Kinds.{ReadsExpr, ReadsStmt, expr_byte, stmt_byte};

// What an expression is. The discriminants are the kind bytes.
#[derive(Clone, Copy, Debug, PartialEq, Eq)]
pub enum ExprKind {
    NoneLiteral = 0,
    False = 1,
    True = 2,
    Int = 3,
    Float = 4,
    Text = 5,
    Variable = 6,
    Unary = 7,
    Binary = 8,
    Call = 9,
    Attribute = 10,
    List = 11,
    Dict = 12,
    Tuple = 13,
    Set = 14,
    TreeSet = 15,
    Index = 16,
    Lambda = 17,
}

// What a statement is, likewise.
#[derive(Clone, Copy, Debug, PartialEq, Eq)]
pub enum StmtKind {
    Break = 0,
    Continue = 1,
    Pass = 2,
    Expr = 3,
    Return = 4,
    Assign = 5,
    If = 6,
    While = 7,
    For = 8,
    Def = 9,
    Class = 10,
}

// A byte that is no kind.
#[derive(Clone, Copy, Debug, PartialEq, Eq)]
pub struct NoKind(pub u8);

impl ExprKind {
    // The kind of a byte that is one.
    #[tactic(auto, unfolding(crate::specs::Kinds::expr_byte))]
    pub fn of(byte: u8) -> Self
        requires { byte < 18 }
        ensures { expr_byte result ≡ byte }
    {
        match byte {
            0 => ExprKind::NoneLiteral,
            1 => ExprKind::False,
            2 => ExprKind::True,
            3 => ExprKind::Int,
            4 => ExprKind::Float,
            5 => ExprKind::Text,
            6 => ExprKind::Variable,
            7 => ExprKind::Unary,
            8 => ExprKind::Binary,
            9 => ExprKind::Call,
            10 => ExprKind::Attribute,
            11 => ExprKind::List,
            12 => ExprKind::Dict,
            13 => ExprKind::Tuple,
            14 => ExprKind::Set,
            15 => ExprKind::TreeSet,
            16 => ExprKind::Index,
            _ => ExprKind::Lambda,
        }
    }
}

impl TryFrom<u8> for ExprKind {
    type Error = NoKind;

    ghost try_from_gives = { ReadsExpr };

    fn try_from(byte: u8) -> Result<Self, NoKind> {
        if byte < 18 {
            Ok(ExprKind::of(byte))
        } else {
            Err(NoKind(byte))
        }
    }
}

impl StmtKind {
    // The kind of a byte that is one.
    #[tactic(auto, unfolding(crate::specs::Kinds::stmt_byte))]
    pub fn of(byte: u8) -> Self
        requires { byte < 11 }
        ensures { stmt_byte result ≡ byte }
    {
        match byte {
            0 => StmtKind::Break,
            1 => StmtKind::Continue,
            2 => StmtKind::Pass,
            3 => StmtKind::Expr,
            4 => StmtKind::Return,
            5 => StmtKind::Assign,
            6 => StmtKind::If,
            7 => StmtKind::While,
            8 => StmtKind::For,
            9 => StmtKind::Def,
            _ => StmtKind::Class,
        }
    }
}

impl TryFrom<u8> for StmtKind {
    type Error = NoKind;

    ghost try_from_gives = { ReadsStmt };

    fn try_from(byte: u8) -> Result<Self, NoKind> {
        if byte < 11 {
            Ok(StmtKind::of(byte))
        } else {
            Err(NoKind(byte))
        }
    }
}
