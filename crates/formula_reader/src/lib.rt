// A reader of the formula: it keeps the words, lent, with the node at which it stands. Whoever goes from node to node
// holds one and moves it (crate `modal_equation_system`); whoever wants one word calls `words::kind_at` and
// `words::operand_at`, by which a reader reads, too.
#![tactic(auto)]

ghost use Rattle.std.specs.Prelude.{◌≡◌};
ghost use Rattle.rules.specs.Table.{kind, operand};
ghost use Rattle.words.specs.Node.{has_kind, has_operand};

#[derive(Clone, Copy)]
pub struct FormulaReader<'a> {
    pub words: &'a [u32],
    pub node: usize,
}

impl<'a> FormulaReader<'a> {
    // A reader at the first node.
    pub fn new(words: &'a [u32]) -> FormulaReader<'a>
        ensures { (result.words ≡ words.entry) × (result.node ≡ 0) }
    {
        FormulaReader { words, node: 0 }
    }

    // The reader moved to another node of the same formula.
    pub fn moved(self, node: usize) -> FormulaReader<'a>
        ensures { (result.words ≡ self.entry.words) × (result.node ≡ node) }
    {
        FormulaReader { node, ..self }
    }

    // The kind of the node at which the reader stands.
    // Kept (no plainer): it answers the word of any formula. A FormulaKind would tell less of a word that is no kind,
    // and a Result would have to be unwrapped by its one caller.
    pub fn kind(self) -> u32
        requires { has_kind self.words.now self.node }
        ensures { result ≡ kind self.entry.words.now self.entry.node }
    {
        words::kind_at(self.words, self.node)
    }

    // The operand of that node.
    pub fn operand(self) -> usize
        requires { has_operand self.words.now self.node }
        ensures { result ≡ operand self.entry.words.now self.entry.node }
    {
        words::operand_at(self.words, self.node)
    }
}
