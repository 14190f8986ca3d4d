// The kinds of the nodes of an action formula, of a regular formula and of a formula, and the words that stand for
// them.
#![tactic(auto)]

ghost use Rattle.std.specs.Prelude.{◌≡◌, ◌/◌, eqb, ltb, min};
ghost use Rattle.node_kinds.specs.Codes.{ReadsAction, ReadsRegular, ReadsFormula};
ghost use Rattle.node_kinds.specs.Codes.{action_code, regular_code, formula_code};

#[derive(Clone, Copy, Debug, PartialEq, Eq)]
pub enum ActionKind {
    True,
    False,
    MultiAction,
    Union,
    Intersection,
    Negation,
}

#[derive(Clone, Copy, Debug, PartialEq, Eq)]
pub enum RegularKind {
    Action,
    Sequence,
    Choice,
    Star,
    Plus,
}

#[derive(Clone, Copy, Debug, PartialEq, Eq)]
pub enum FormulaKind {
    True,
    False,
    And,
    Or,
    Box,
    Diamond,
    Least,
    Greatest,
    Reference,
}

// What a node or an item is: its kind, and its operands by their numbers.
// Kept (rule): operands are numbers of other nodes or items: there is no heap for a tree.
#[derive(Clone, Copy, PartialEq, Eq, Debug)]
pub struct Shape<K> {
    pub kind: K,
    pub left: u32,
    pub right: u32,
}

impl<K> Shape<K> {
    pub fn new(kind: K, left: u32, right: u32) -> Shape<K>
        ensures { result ≡ record { kind = kind; left = left; right = right } }
    {
        Shape { kind, left, right }
    }
}

// A word that stands for no kind.
#[derive(Clone, Copy, Debug, PartialEq, Eq)]
pub struct UnknownKind(pub u32);

// Kept (no plainer): three kinds have three lists of words, and no derive reads a kind from its word. What takes a word
// of no kind for the last one is a function of its own, since a conversion would hide that.
impl TryFrom<u32> for ActionKind {
    type Error = UnknownKind;

    ghost try_from_gives = { ReadsAction };

    fn try_from(word: u32) -> Result<Self, UnknownKind> {
        match word {
            0 => Ok(ActionKind::True),
            1 => Ok(ActionKind::False),
            2 => Ok(ActionKind::MultiAction),
            3 => Ok(ActionKind::Union),
            4 => Ok(ActionKind::Intersection),
            5 => Ok(ActionKind::Negation),
            _ => Err(UnknownKind(word)),
        }
    }
}

impl TryFrom<u32> for RegularKind {
    type Error = UnknownKind;

    ghost try_from_gives = { ReadsRegular };

    fn try_from(word: u32) -> Result<Self, UnknownKind> {
        match word {
            0 => Ok(RegularKind::Action),
            1 => Ok(RegularKind::Sequence),
            2 => Ok(RegularKind::Choice),
            3 => Ok(RegularKind::Star),
            4 => Ok(RegularKind::Plus),
            _ => Err(UnknownKind(word)),
        }
    }
}

impl TryFrom<u32> for FormulaKind {
    type Error = UnknownKind;

    ghost try_from_gives = { ReadsFormula };

    fn try_from(word: u32) -> Result<Self, UnknownKind> {
        match word {
            0 => Ok(FormulaKind::True),
            1 => Ok(FormulaKind::False),
            2 => Ok(FormulaKind::And),
            3 => Ok(FormulaKind::Or),
            4 => Ok(FormulaKind::Box),
            5 => Ok(FormulaKind::Diamond),
            6 => Ok(FormulaKind::Least),
            7 => Ok(FormulaKind::Greatest),
            8 => Ok(FormulaKind::Reference),
            _ => Err(UnknownKind(word)),
        }
    }
}

impl ActionKind {
    // The kind with this word. A word that stands for none is read as the last kind.
    pub fn of(word: u32) -> ActionKind
        ensures { action_code result ≡ min word 5 }
    {
        ActionKind::try_from(word).unwrap_or(ActionKind::Negation)
    }
}

impl RegularKind {
    // The kind with this word. A word that stands for none is read as the last kind.
    pub fn of(word: u32) -> RegularKind
        ensures { regular_code result ≡ min word 4 }
    {
        RegularKind::try_from(word).unwrap_or(RegularKind::Plus)
    }
}

impl FormulaKind {
    // The kind with this word. A word that stands for none is read as the last kind.
    pub fn of(word: u32) -> FormulaKind
        ensures { formula_code result ≡ min word 8 }
    {
        FormulaKind::try_from(word).unwrap_or(FormulaKind::Reference)
    }

    // Is a node of this kind a formula that holds everywhere or nowhere?
    pub fn is_constant(self) -> bool
        ensures { result ≡ ltb (formula_code self) 2 }
    {
        matches!(self, FormulaKind::True | FormulaKind::False)
    }

    // Does it speak of the transitions of a state?
    pub fn is_modality(self) -> bool
        ensures { result ≡ eqb (formula_code self / 2) 2 }
    {
        matches!(self, FormulaKind::Box | FormulaKind::Diamond)
    }

    // Does it begin an equation?
    pub fn is_fixpoint(self) -> bool
        ensures { result ≡ eqb (formula_code self / 2) 3 }
    {
        matches!(self, FormulaKind::Least | FormulaKind::Greatest)
    }
}
