// The roles that an expression can have (10 and 36).
ghost use Rattle.std.specs.Prelude.{◌≡◌};
ghost use Rattle.tree_view.specs.Judge.{fits_role, tuple_fits_role, inner};

use numerals::kinds::ExprKind;

// What an expression stands for: a value, an assignment's target, an element of a tuple target.
#[derive(Clone, Copy)]
pub enum Role {
    Value,
    Target,
    Element,
}

impl Role {
    // 10: whether a kind of expression can stand in this role.
    #[tactic(auto, unfolding(crate::specs::Judge::fits_role, numerals::specs::Kinds::expr_byte))]
    pub fn fits(self, kind: u8) -> bool
        ensures { result ≡ fits_role self kind }
    {
        match self {
            Role::Value => true,
            Role::Target => matches!(
                ExprKind::try_from(kind),
                Ok(ExprKind::Variable | ExprKind::Attribute | ExprKind::Tuple | ExprKind::Index)
            ),
            Role::Element => matches!(
                ExprKind::try_from(kind),
                Ok(ExprKind::Variable | ExprKind::Tuple)
            ),
        }
    }

    // 36: whether a tuple of n elements can stand in this role.
    #[tactic(auto, unfolding(crate::specs::Judge::tuple_fits_role))]
    pub fn holds(self, n: u32) -> bool
        ensures { result ≡ tuple_fits_role self n }
    {
        match self {
            Role::Value => true,
            Role::Target | Role::Element => 0 < n,
        }
    }

    // The role of a tuple's elements.
    #[tactic(auto, unfolding(crate::specs::Judge::inner))]
    pub fn within(self) -> Role
        ensures { result ≡ inner self }
    {
        match self {
            Role::Value => Role::Value,
            Role::Target | Role::Element => Role::Element,
        }
    }
}
